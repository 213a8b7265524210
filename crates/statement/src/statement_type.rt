ghost use Rattle.std.specs.Prelude.{◌≡◌, []};
ghost use Rattle.sha2.specs.Sha256.{sha256};
ghost use Rattle.statement.specs.Claims.{names_from};
ghost use Rattle.statement.specs.Statements.{Reads, Logged};

use crate::blobs::Blobs;
use crate::names::ContentType;
use cbor_core::{Bytes, Text};
use cose_sign1::Label;

/// A SHA-256 digest.
pub type Hash = [u8; 32];

/// A statement.
#[derive(Drop)]
pub struct Statement {
    /// Claim 1, iss (RFC 8392, 3.1.1).
    pub issuer: Text,
    /// Claim 2, sub (RFC 8392, 3.1.2).
    pub subject: Text,
    /// The key's name (RFC 9052, 3.1, label 4).
    pub kid: Bytes,
    /// The algorithm (RFC 9052, 3.1, label 1), where the protected map has it.
    pub alg: Option<Label>,
    /// The content type (RFC 9052, 3.1, label 3) of the protected map.
    pub content_type: ContentType,
    /// Claim 5, in seconds since 1970 (RFC 8392, 3.1.5).
    pub nbf: Option<u64>,
    /// Claim 4, in seconds since 1970 (RFC 8392, 3.1.4).
    pub exp: Option<u64>,
    /// Claim 6, in seconds since 1970 (RFC 8392, 3.1.6).
    pub iat: Option<u64>,
    /// The protected string as it was given.
    pub protected: Bytes,
    pub payload: Bytes,
    pub signature: Bytes,
    /// The strict encoding of tag 18 on `[protected, {}, payload, signature]`.
    pub logged: Bytes,
    /// SHA-256 of `logged`.
    pub id: Hash,
    /// The byte strings under the unprotected label 394.
    pub receipts: Blobs,
    ghost logged_form: { ∥ Logged protected payload signature logged ∥₁ },
    ghost statement_id: { id ≡ sha256 logged },
    ghost parses_again: { ∥ Reads logged (names_from issuer subject kid alg content_type nbf exp iat) protected payload signature [] ∥₁ },
}
