//! A log on a disk with its signer: registrations, and what is read back of the log.
#![tactic(auto)]

mod deciding;
mod laws;
mod opening;
mod reading;
mod ready;
mod records;
mod registering;
mod registrar;
mod words;
mod writing;

pub use laws::turn_laws;
pub use registrar::Registrar;
pub use words::{Outcome, Params, ReadBack, RegistrarStop};
