//! The relying party: whom it trusts, and what it answers of a transparent statement and of a consistency receipt.
#![tactic(auto)]

mod answers;
mod decoding;
mod entry;
mod growing;
mod inclusion;
mod judging;
mod laws;
mod named;
mod reading;
mod signing;
mod transparent;
mod trust;

pub use answers::{ConsistencyResult, ReceiptResult, Results, StatementCheck, Verdict};
pub use growing::verify_consistency;
pub use laws::{
    accepted_receipts_mean_entries, consistent_receipts_mean_growth, shown_entries_are_accepted,
    shown_growth_is_accepted, trust_files_have_one_answer, verdicts_are_one,
};
pub use transparent::verify_transparent;
pub use trust::{Issuer, Service, Trust, TrustStop};
