//! Which rule of a policy holds of a statement, after all statements before it.
#![tactic(auto)]

mod counts;
mod entered;
mod history;
mod holding;
mod keys;

pub use history::History;
pub use holding::verdict;
