ghost use Rattle.std.specs.Prelude.{[]};
ghost use Rattle.statement.specs.Statements.{Reads, Logged};
ghost use Rattle.statement.specs.Parsed.{MadeOf};

use crate::blobs::Blobs;
use crate::names::Names;
use crate::statement_type::Statement;
use cbor_core::Bytes;
use sha2::{Digest, Sha256};

/// The statement of these parts, whose logged form reads as the same without receipts.
pub fn assemble(
    names: Names,
    protected: Bytes,
    payload: Bytes,
    signature: Bytes,
    logged: Bytes,
    receipts: Blobs,
) -> Statement
    requires form { Logged protected payload signature logged }
    requires again { Reads logged names protected payload signature [] }
    ensures { MadeOf result names protected payload signature logged receipts }
{
    let id = Sha256::digest(logged.as_slice());
    let Names {
        issuer,
        subject,
        kid,
        alg,
        content_type,
        nbf,
        exp,
        iat,
    } = names;
    Statement {
        issuer,
        subject,
        kid,
        alg,
        content_type,
        nbf,
        exp,
        iat,
        protected,
        payload,
        signature,
        logged,
        id,
        receipts,
    }
}
