//! One-time signatures LM-OTS (RFC 8554, section 4) with SHA-256 and n = 32.
//!
//! A one-time key is named by its tree's identifier and its leaf number, [`OtsAt`]. Its secrets come
//! from a seed of 32 bytes. No call takes memory.
#![tactic(auto)]

mod chains;
mod digits;
mod laws;
mod one_time;
mod parameters;
mod table;
mod words;

pub use chains::{OtsAt, prefix, spare_secret};
pub use laws::{ots_law, word_law};
pub use one_time::{OtsStop, ots_key_into, ots_public_from, ots_sign_into};
pub use parameters::{OtsParameters, OtsType};
pub use table::{ots_sig_len, ots_type};
pub use words::{Hash, hash_at, put, u32_at, u32str};
