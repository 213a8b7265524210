//! Tests of the key file.
#![tactic(auto)]

#[cfg(test)]
mod bad;
mod making;
#[cfg(test)]
mod signing;
#[cfg(test)]
mod stops;
#[cfg(test)]
mod takes;

pub use making::{log_of, made_on, one_level};
