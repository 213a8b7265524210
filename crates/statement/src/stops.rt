use cose_sign1::Sign1Stop;
use thiserror::Error;

/// Why bytes are no statement, in the order in which the rules are tried.
#[derive(Debug, PartialEq, Eq, Drop, Error)]
pub enum ParseStop {
    /// The bytes are no COSE_Sign1; never with `OutOfMemory`.
    #[error("{0}")]
    Sign1(Sign1Stop),
    /// The payload is nil.
    #[error("a detached payload")]
    Detached,
    /// No label 15 in the protected map (RFC 9597, 2).
    #[error("no claims")]
    NoClaims,
    /// No claim 1, iss (RFC 8392, 3.1.1).
    #[error("no issuer")]
    NoIssuer,
    /// No claim 2, sub (RFC 8392, 3.1.2).
    #[error("no subject")]
    NoSubject,
    /// No label 4, kid, in the protected map (RFC 9052, 3.1).
    #[error("no kid")]
    NoKid,
    /// The smallest number of a claim whose value is wrong: a name (1, 2) is a text of 1 to 1,024 bytes, a moment (4, 5, 6) an
    /// unsigned number below 2^63, where there is one.
    #[error("a wrong value of claim {0}")]
    BadClaim(u8),
    /// The logged form exceeds 4,194,304 bytes.
    #[error("too large a logged form")]
    TooLarge,
    #[error("out of memory")]
    OutOfMemory,
}
