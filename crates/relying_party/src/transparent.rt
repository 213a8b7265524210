// Transparent statements.

ghost use Rattle.std.specs.Prelude.{IfOk};
ghost use Rattle.relying_party.specs.Accepts.{Accepts};
ghost use Rattle.relying_party.specs.Meaning.{MeansEntries};

use crate::answers::{StatementCheck, Verdict};
use crate::judging::verdict_on;
use crate::laws::accepted_receipts_mean_entries;
use crate::trust::Trust;
use cbor_core::strict_spelling_is_unique;
use cose_sign1::bare_message_is_one;
use sqlite_items::Items;
use statement::{ParseStop, parse, statements_have_one_answer};
use std::alloc::{AllocError, Global};

/// What a relying party answers of a transparent statement: of the statement itself by the first check that fails, and where it is fine
/// of each receipt in its order by the first rule that fails (`StatementCheck`, `ReceiptResult`).
///
/// The only error is the want of memory. The receipts of a refused statement aren't read. An accepted receipt means that whatever list of
/// entries has its root and size has the statement's entry at its index, where nothing that is hashed collides.
pub fn verify_transparent(alloc: Global, trust: &Trust, bytes: &[u8]) -> Result<Verdict, AllocError>
    ensures accepts { IfOk result (Accepts trust.now bytes.now) }
    ensures means { IfOk result (MeansEntries bytes.now) }
{
    accepted_receipts_mean_entries();
    statements_have_one_answer();
    bare_message_is_one();
    strict_spelling_is_unique();
    match parse(alloc, bytes) {
        Ok(statement) => verdict_on(alloc, trust, &statement),
        Err(ParseStop::OutOfMemory) => Err(AllocError),
        Err(stop) => Ok(Verdict {
            statement: StatementCheck::Parse(stop),
            receipts: Items::new(alloc),
            accepted: false,
        }),
    }
}
