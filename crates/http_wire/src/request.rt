use cbor_core::{Bytes, Text};
use thiserror::Error;

/// The method of a request (RFC 9110, 9).
#[derive(Clone, Copy, Debug, PartialEq, Eq)]
pub enum Method {
    Get,
    Post,
    Head,
    Other,
}

/// Why a head is refused.
#[derive(Clone, Copy, Debug, PartialEq, Eq, Error)]
pub enum HeadFault {
    /// The parser refuses the head; or Content-Length stands twice, or isn't 1 to 10 digits.
    #[error("a head that the parser refuses")]
    BadHead,
    /// Transfer-Encoding stands, or a POST has no Content-Length.
    #[error("no length of the body")]
    NoLength,
    /// Content-Length exceeds 4,194,304.
    #[error("too large a body")]
    TooLarge,
    /// 8,192 bytes are no whole head, and the parser doesn't refuse them.
    #[error("too long a head")]
    HeadTooLong,
}

/// A request (RFC 9112, 2 and 3).
#[derive(Drop)]
pub struct Request {
    pub method: Method,
    /// The whole target, as it stands in the head.
    pub target: Text,
    /// Whether the body's type is `application/cose`.
    pub cose: bool,
    pub body: Bytes,
    /// Whether it asks to end the connection.
    pub close: bool,
}

/// An answer after which a wire gives no request any more.
#[derive(Clone, Copy, Debug, PartialEq, Eq)]
pub enum Stop {
    Ended,
    CutShort,
    Refused(HeadFault, bool),
    ReadFault,
    OutOfMemory,
}

/// What a wire answers.
#[derive(Drop)]
pub enum Next {
    /// The next request.
    Request(Request),
    /// The input ended between requests.
    Ended,
    /// The input ended inside a request.
    CutShort,
    /// The next head is refused. The flag says that it was read whole and its method is HEAD.
    Refused(HeadFault, bool),
    /// The link refused a read.
    ReadFault,
    OutOfMemory,
}
