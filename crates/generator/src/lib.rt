//! A log of stated statements: registered in memory, and audited.
#![tactic(auto)]

mod filling;
mod generating;

pub use generating::{Summary, generate};
