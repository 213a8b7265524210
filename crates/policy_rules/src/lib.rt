//! Policy documents: who governs, who may issue, and by which rules a statement is admitted.
#![tactic(auto)]

mod conditions;
mod decoding;
mod documents;
mod encoding;
mod facts;
mod holders;
mod laws;
mod reading;
mod rules;

pub use conditions::{Cond, CondNode};
pub use decoding::decode;
pub use documents::{Holder, Holders, Key60, Policy, PolicyStop, Rule, Rules};
pub use encoding::encode;
pub use facts::{ContentKind, Facts};
pub use laws::{
    conditions_are_spelled_once, documents_are_spelled_once, documents_have_one_answer,
};
