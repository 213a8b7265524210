//! Forms that documents are printed as: reading what is printed gives the document's bytes again.
#![tactic(auto)]

mod conditions;
mod holders;
mod policy;
mod showing;
mod tables;
mod trust;

pub use showing::{
    ShowStop, show_document, show_policy, show_trust, shown_policies_read_back,
    shown_trust_files_read_back,
};
