//! Forms: policies, trust files and parameters as people write them (TOML 1.0), the items that they say, and a policy's bytes.
#![tactic(auto)]

mod conditions;
mod fields;
mod holders;
mod items;
mod levels;
mod params;
mod policy;
mod refusal;
mod stop;
mod texts;
mod told;
mod trust;
mod writing;

pub use params::params_item;
pub use policy::policy_item;
pub use refusal::{Place, Refusal, Why, Word};
pub use stop::FormStop;
pub use texts::{bytes_of_item, table_of};
pub use trust::trust_item;
pub use writing::write_policy;
