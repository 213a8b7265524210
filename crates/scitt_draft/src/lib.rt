//! Statements on claims that are given, keys that are derived from names, and the statements of a generated log.
#![tactic(auto)]

mod claims;
mod keys;
mod policy;
mod protecting;
mod signing;
mod stated;
mod within;

pub use claims::Claims;
pub use keys::{Named, governor_levels, issuer_levels, service_levels};
pub use protecting::protected_string;
pub use signing::{kid_of, make_statement};
pub use stated::Parties;
