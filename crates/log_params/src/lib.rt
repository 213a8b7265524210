//! Parameter files: what a new log is begun with, as bytes spell it.
#![tactic(auto)]

mod decoding;
mod laws;
mod reading;
mod stop;

pub use decoding::{decode, params_in};
pub use laws::params_have_one_answer;
pub use stop::ParamsStop;
