//! All that the program `scitt` does, as one call over the objects that it is handed.
#![tactic(auto)]

mod answer;
mod attach;
mod audit;
mod claims;
mod command;
mod consistent;
mod draft;
mod ended;
mod fault;
mod file;
mod generate;
mod keygen;
mod laws;
mod lines;
mod numbers;
mod policy;
mod printed;
mod random;
mod replay;
mod root;
mod run;
mod show;
mod sign;
mod stop;
mod stops;
mod verify;

pub use command_line::Status;
pub use laws::words_and_files_have_one_text;
pub use run::run_tool;
