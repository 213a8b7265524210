use cbor_core::{Bytes, Text};
use cose_sign1::Label;

/// A content type (RFC 9052, 3.1, label 3).
#[derive(Drop)]
pub enum ContentType {
    Absent,
    /// A media type, or any other text of at most 1,024 bytes.
    Named(Text),
    /// A number of the CoAP content formats.
    Number(u64),
}

/// What the protected parameters of a statement say.
#[derive(Drop)]
pub struct Names {
    pub issuer: Text,
    pub subject: Text,
    pub kid: Bytes,
    pub alg: Option<Label>,
    pub content_type: ContentType,
    pub nbf: Option<u64>,
    pub exp: Option<u64>,
    pub iat: Option<u64>,
}
