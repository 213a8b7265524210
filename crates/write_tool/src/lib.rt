//! All that the program `scitt_write` does, as one call over the objects that it is handed.
#![tactic(auto)]

mod answer;
mod command;
mod run;
mod text;

pub use command::{Kind, Task};
pub use run::run_write;
