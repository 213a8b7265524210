//! Hierarchical signatures HSS over one to eight levels of trees (RFC 8554, section 6), with SHA-256.
#![tactic(auto)]

mod branch;
mod flat;
mod keys;
mod laws;
mod levels;
mod signer;
mod verifying;

pub use flat::flat_index;
pub use keys::names_levels;
pub use laws::{hss_law, key_laws, levels_law};
pub use levels::Levels;
pub use lms_ots::{OtsType, ots_type};
pub use lms_tree::{Level, LmsType, OutOfMemory, lms_type};
pub use signer::Signer;
pub use verifying::{HssPublic, Key60, hss_verify};
