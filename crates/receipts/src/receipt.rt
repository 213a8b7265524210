use cbor_core::{Bytes, Fault, Text};
use merkle_tree::{Hash, Path};
use thiserror::Error;

/// A receipt, in the one form of the profile (COSE Receipts).
#[derive(Drop)]
pub struct Receipt {
    pub name: Text,
    pub kid: Hash,
    pub size: u32,
    pub proof: Proof,
    pub signature: Bytes,
}

/// What a receipt proves.
#[derive(Drop)]
pub enum Proof {
    Inclusion {
        size: u32,
        index: u32,
        path: Path,
        at: u64,
        rule: u16,
    },
    Consistency {
        old: u32,
        size: u32,
        path: Path,
    },
}

/// Why bytes are no receipt.
#[derive(Clone, Copy, PartialEq, Eq, Debug, Drop, Error)]
pub enum ReceiptStop {
    /// They aren't one strict item.
    #[error("{0}")]
    Cbor(Fault),
    /// The item has another shape.
    #[error("no receipt")]
    NotReceipt,
    /// The protected string says something else.
    #[error("no protected string of a receipt")]
    BadProtected,
    /// The proof has another form.
    #[error("no proof of a receipt")]
    BadProof,
    #[error("out of memory")]
    OutOfMemory,
}

/// What a protected string says.
#[derive(Drop)]
pub struct Named {
    pub name: Text,
    pub kid: Hash,
    pub size: u32,
}

/// What a proof's string says: size and index, or both sizes, and the path.
#[derive(Drop)]
pub struct Led {
    pub first: u32,
    pub second: u32,
    pub path: Path,
}
