use thiserror::Error;

/// Which spelling is read.
#[derive(Clone, Copy, Debug, PartialEq, Eq)]
pub enum Grammar {
    /// Shortest heads, rising keys, no floats (RFC 8949, 4.2.1).
    Strict,
    /// Any width of a head, keys in any order, floats (RFC 8949, 3).
    Wide,
}

/// Why bytes spell no item.
#[derive(Clone, Copy, Debug, PartialEq, Eq, Error)]
pub enum Why {
    /// The bytes end too early.
    #[error("the bytes end too early")]
    Truncated,
    /// Additional information 28 to 30, or a simple value below 32 in two bytes (RFC 8949, 3 and 3.3).
    #[error("reserved additional information")]
    Reserved,
    /// Additional information 31, an indefinite length or a break (RFC 8949, 3.2).
    #[error("an indefinite length or a break")]
    Indefinite,
    /// Strict alone: an argument in more bytes than it needs (RFC 8949, 4.2.1).
    #[error("an argument in more bytes than it needs")]
    NotShortest,
    /// Strict alone: a float.
    #[error("a float")]
    FloatHere,
    /// A string over 4,198,400 bytes, or over 4,096 items or pairs.
    #[error("too long a string, or too many items or pairs")]
    TooLong,
    /// An array, a map or a tag inside 16 others.
    #[error("nested too deep")]
    TooDeep,
    /// A text whose bytes are no UTF-8 (RFC 8949, 3.1).
    #[error("a text that isn't UTF-8")]
    NotUtf8,
    /// A map's key that an earlier pair has (RFC 8949, 5.6).
    #[error("a key stands twice in a map")]
    DupKey,
    /// Strict alone: a map's key that isn't above the one before it (RFC 8949, 4.2.1).
    #[error("a map's keys don't rise")]
    KeyOrder,
    /// Bytes after the item.
    #[error("bytes follow the item")]
    Trailing,
}

/// The first fault, and its place, counted from 0.
#[derive(Clone, Copy, Debug, PartialEq, Eq, Error)]
#[error("{why}, at {at}")]
pub struct Fault {
    pub at: u64,
    pub why: Why,
}

/// Why a decoder gave no item.
#[derive(Clone, Copy, Debug, PartialEq, Eq, Drop, Error)]
pub enum DecodeStop {
    /// The bytes spell no item: the first fault in reading order. Of a decoder that takes all bytes also that some are left.
    #[error("{0}")]
    Fault(Fault),
    /// Memory ran out.
    #[error("out of memory")]
    OutOfMemory,
}

/// Why an encoder gave no bytes.
#[derive(Clone, Copy, Debug, PartialEq, Eq, Drop, Error)]
pub enum EncodeStop {
    /// No strict bytes spell the item, or more than a buffer can hold.
    #[error("the item has no strict bytes, or too many")]
    NotStrict,
    /// Memory ran out.
    #[error("out of memory")]
    OutOfMemory,
}
