//! Trees of one-time keys, LMS (RFC 8554, section 5), with SHA-256 and m = 32.
#![tactic(auto)]

mod growing;
mod laws;
mod nodes;
mod table;
mod tree;
mod types;
mod verifying;

pub use laws::lms_law;
pub use table::{height, leaf_count, level_at, lms_sig_len, lms_type};
pub use tree::{OutOfMemory, Tree, TreeSeed};
pub use types::{Level, LmsParameters, LmsType};
pub use verifying::{has_types, verify};
