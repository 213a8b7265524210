//! What a log's receipts mean, and that they are accepted.
#![tactic(auto)]

mod laws;

pub use laws::{
    accepted_receipts_are_of_the_log, consistent_logs_begin_alike, entries_have_receipts,
    entries_were_admitted, own_consistency_is_accepted, own_receipts_are_accepted,
    sizes_have_consistency_receipts,
};
