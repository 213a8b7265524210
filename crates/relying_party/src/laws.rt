// Laws of trust files, verdicts and accepted receipts.

ghost use Rattle.relying_party.specs.Converse.{ShownIsAccepted, AttachedIsAccepted, GrownIsConsistent};
ghost use Rattle.relying_party.specs.Meaning.{ReceiptsMeanEntries, ReceiptsMeanGrowth};
ghost use Rattle.relying_party.specs.OneAnswer.{SomeAnswer, OneAnswer, TrustIsExact, SomeVerdict, OneVerdict};

use cbor_core::{strict_item_is_exact, whole_bytes_have_one_answer};
use merkle_tree::{consistency_laws, inclusion_laws, path_laws, proof_laws};
use statement::{
    attached_statement_is_the_same, logged_form_is_the_statement, statements_have_one_answer,
};

/// A law: all bytes are one trust file, or have one first thing that is wrong, and never both. So `Trust::decode` refuses exactly where
/// something is wrong, unless memory is wanting. `trust_of` gives the trust file as a function of the bytes.
pub fn trust_files_have_one_answer()
    ensures some { SomeAnswer }
    ensures one { OneAnswer }
    ensures exact { TrustIsExact }
{
    whole_bytes_have_one_answer();
    strict_item_is_exact();
}

/// A law: under a trust there is one verdict on all bytes, and no other. So `verify_transparent` answers it, unless memory is wanting.
pub fn verdicts_are_one()
    ensures some { SomeVerdict }
    ensures one { OneVerdict }
{
    statements_have_one_answer();
}

/// A law: whatever list begins with as many entries as an accepted receipt's size, of its root, and hashes nothing there that collides
/// with the receipt's strings, has the statement's entry at the receipt's index.
pub fn accepted_receipts_mean_entries()
    ensures { ReceiptsMeanEntries }
{
    inclusion_laws();
}

/// A law: whatever lists have the sizes and roots of a consistent answer, and hash nothing that collides with the receipt's strings or
/// among them, the longer one begins with the other.
pub fn consistent_receipts_mean_growth()
    ensures { ReceiptsMeanGrowth }
{
    consistency_laws();
}

/// A law: a receipt is accepted that shows, by the standard's path, that the statement's entry stands in a list of entries whose root the
/// key of the first service that it names verifies. And a statement is accepted to which such a receipt of its own entry was attached, where
/// its issuer isn't asked for, or the first issuer that it names verifies its signature.
pub fn shown_entries_are_accepted()
    ensures shown { ShownIsAccepted }
    ensures attached { AttachedIsAccepted }
{
    path_laws();
    statements_have_one_answer();
    logged_form_is_the_statement();
    attached_statement_is_the_same();
}

/// A law: a consistency receipt is accepted that shows, by the standard's proof, that a list of entries grew from its first ones, whose root
/// is given, and whose root the key of the first service that it names verifies.
pub fn shown_growth_is_accepted()
    ensures { GrownIsConsistent }
{
    proof_laws();
}
