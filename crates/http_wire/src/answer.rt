use cbor_core::Bytes;

/// What an answer's body is.
#[derive(Clone, Copy, Debug, PartialEq, Eq)]
pub enum BodyKind {
    /// `application/cose`
    Cose,
    /// `application/cbor`
    Cbor,
    /// `application/vnd.scitt-problem+cbor`
    Problem,
}

/// The method that an answer allows in the place of the one that was asked for (RFC 9110, 10.2.1).
#[derive(Clone, Copy, Debug, PartialEq, Eq)]
pub enum Allow {
    Absent,
    Get,
    Post,
}

/// An answer to a request.
#[derive(Drop)]
pub struct Answer {
    /// A status code of three digits (RFC 9110, 15).
    pub status: u16,
    pub kind: BodyKind,
    pub body: Bytes,
    /// The entries of the log.
    pub size: u32,
    /// The index of the entry whose place is named.
    pub location: Option<u32>,
    pub allow: Allow,
    /// Whether the connection ends behind the answer.
    pub close: bool,
    /// Whether the answer is to a HEAD, and so has no body.
    pub head_only: bool,
}
