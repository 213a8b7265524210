//! Tests of `log_params`.
#![tactic(auto)]

#[cfg(test)]
mod files;
#[cfg(test)]
mod vectors;
