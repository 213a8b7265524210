//! SCRAPI over one connection: the answers of the service, whose turns are made by a seat among other seats on threads.
#![tactic(auto)]

mod laws;
mod seated;

pub use laws::connection_laws;
pub use scitt_answers::{Gate, NoGate, SessionEnd};
pub use seated::{Seated, serve_connection};
