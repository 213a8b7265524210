//! What tests play with: keys, policies, statements and logs, and what a registrar answers, as texts. It has no tests of its own.
#![tactic(auto)]

mod making;
mod seats;
mod telling;

pub use making::{
    Cast, POLICY, Said, begun, document, fresh, genesis, holder, issued, levels, new_cast, params,
    ruled, signed, signed_over,
};
pub use seats::registers;
pub use telling::{admission, answer, digest, read_back, told};
