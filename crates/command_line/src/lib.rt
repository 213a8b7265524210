//! What the programs of the command line share: their words, their answers and what they end with.
#![tactic(auto)]

mod answer;
mod ends;
mod file;
mod given;

pub use answer::{Answer, Status, unread, words_refused};
pub use ends::exit_code;
pub use file::read_file;
pub use given::words_given;
