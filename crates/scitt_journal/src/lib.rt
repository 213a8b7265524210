//! The journal: a file of records of which a crash at any moment leaves those before a call, or those with the one
//! new record.
#![tactic(auto)]

mod finding;
mod laws;
mod ledger;
mod record;
mod records;
mod steps;
mod stops;

pub use laws::{crash_laws, journal_laws};
pub use ledger::Ledger;
pub use record::Journal;
pub use stops::{BodyStop, CreateStop, LoadStop, Refused};
