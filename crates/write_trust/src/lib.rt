//! The bytes of the trust file that a text says (TOML 1.0).
#![tactic(auto)]

mod writing;

pub use writing::write_trust;
