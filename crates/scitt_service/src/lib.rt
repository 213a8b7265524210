//! A registrar behind a lock: its callers, on any threads, take turns on it, and each has seen a beginning of one log.
#![tactic(auto)]

pub use service::{SeatsOut, Service};

mod held;
mod service;
mod turns;
