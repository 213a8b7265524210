//! Scripts: a log that is begun, a clock's moments and what a peer sends; and what the peer hears where it is replayed.
#![tactic(auto)]

mod clock;
mod decoding;
mod laws;
mod reading;
mod replaying;
mod script;

pub use decoding::decode;
pub use laws::bytes_are_one_script;
pub use replaying::{Replayed, replay};
pub use script::{Script, ScriptStop};
