use merkle_tree::Hash;
use sqlite_items::Items;
use statement::ParseStop;

/// What became of one receipt.
#[derive(Drop)]
pub enum ReceiptResult {
    /// The statement was registered under this rule, at this moment in seconds since 1970, and stands as this entry of a tree of so many
    /// entries with this root, which the service signed.
    Accepted {
        size: u32,
        root: Hash,
        index: u32,
        registered_at: u64,
        rule: u16,
    },
    /// The first rule that fails: 1 the bytes are no receipt; 2 it is a consistency receipt; 3 no service has its name and kid; 4 the
    /// proof's size isn't the protected one; 5 the index isn't below the size; 6 the path leads to no root; 7 the service's key doesn't
    /// verify the signature over the root.
    Refused(u8),
}

/// The receipts' results, that contracts see as a list.
pub type Results = Items<ReceiptResult>;

/// What became of the statement itself, in the order in which it is checked.
#[derive(Drop)]
pub enum StatementCheck {
    /// The bytes are no statement; never with `OutOfMemory`.
    Parse(ParseStop),
    /// There is no receipt.
    NoReceipts,
    /// Issuers are trusted, and none has the statement's issuer and kid.
    IssuerUnknown,
    /// The alg isn't -46, HSS-LMS (RFC 8778, 6), or the first such issuer's key doesn't verify the signature.
    IssuerSignature,
    Fine,
}

/// A relying party's answer to a transparent statement.
#[derive(Drop)]
pub struct Verdict {
    pub statement: StatementCheck,
    /// The results of all receipts in their order, where the statement is fine, else none.
    pub receipts: Results,
    /// Whether the statement is fine and one receipt is accepted.
    pub accepted: bool,
}

/// A relying party's answer to a consistency receipt.
#[derive(Drop)]
pub enum ConsistencyResult {
    /// The tree of the given size and root grew to one of so many entries with this root, which the service signed.
    Consistent { size: u32, root: Hash },
    /// The first rule that fails: 1 the bytes are no receipt; 2 it is an inclusion receipt; 3 no service has its name and kid; 4 the proof's
    /// new size isn't the protected one; 5 its old size isn't the given one, is 0 or is above the new size; 6 the path leads to no roots, or
    /// to another old root than the given one; 7 the service's key doesn't verify the signature over the new root.
    Refused(u8),
}
