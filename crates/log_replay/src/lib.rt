//! The log as a list of records: what it says, what a statement is judged to be, and when a list is well made.
#![tactic(auto)]

mod checked;
mod growth;
mod hashing;
mod holders;
mod judging;
mod keys;
mod laws;
mod numbered;
mod parts;
mod reading;
mod rules;
mod signing;
mod state;
mod stepping;
mod tables;
mod words;
mod writing;

pub use checked::{Checked, check};
pub use growth::{
    answer_laws, fitting_laws, growth_laws, home_laws, limit_laws, more_laws, record_laws,
};
pub use holders::{any_levels_of, holder_of, text_copied};
pub use laws::{log_laws, state_laws};
pub use parts::{BatchParts, EntryParts, Header};
pub use reading::{entry_parts, read_batch};
pub use state::State;
pub use words::{Failing, Judgement, StepStop, Why};
pub use writing::{batch_body, entry_bytes, entry_law, header_body, reserve_body, shape_laws};
