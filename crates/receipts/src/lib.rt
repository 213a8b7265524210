//! Receipts: a service's signature over a root, with a proof that leads to it (COSE Receipts).
#![tactic(auto)]

mod decoding;
mod encoding;
mod items;
mod laws;
mod reading;
mod receipt;
mod signing;
mod within;

pub use decoding::decode;
pub use encoding::encode;
pub use laws::receipts_are_read_again;
pub use receipt::{Proof, Receipt, ReceiptStop};
pub use signing::{tbs_into, tbs_len};
