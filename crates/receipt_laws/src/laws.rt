// Laws of the entries that a log has, and of the receipts that are made of them.

ghost use Rattle.receipt_laws.specs.Standing.{EntriesWereAdmitted};
ghost use Rattle.receipt_laws.specs.Meaning.{AcceptedIsOfTheLog};
ghost use Rattle.receipt_laws.specs.Own.{EntriesHaveReceipts, OwnReceiptsAreAccepted};
ghost use Rattle.receipt_laws.specs.Growing.{ConsistentIsOfTheLogs, SizesHaveConsistency, OwnConsistencyIsAccepted};

use cbor_core::{
    strict_item_by_kind, strict_item_is_exact, strict_items_are_spelled, strict_text_is_exact,
    whole_bytes_have_one_answer,
};
use log_replay::{answer_laws, growth_laws, home_laws, limit_laws, log_laws, record_laws};
use merkle_tree::{mth_laws, path_laws, proof_laws};
use receipts::receipts_are_read_again;
use relying_party::{
    accepted_receipts_mean_entries, consistent_receipts_mean_growth, shown_entries_are_accepted,
    shown_growth_is_accepted,
};
use statement::{
    attached_statement_is_the_same, logged_form_is_the_statement, statements_have_one_answer,
};

/// A law: each entry of a well made log stands in a record, before which the log judged its statement, at its moment, to be admitted by its
/// rule, and whose signature over the root of the entries up to and with it the log's key verifies.
pub fn entries_were_admitted()
    ensures { EntriesWereAdmitted }
{
    home_laws();
    log_laws();
    growth_laws();
    record_laws();
}

/// A law: an accepted receipt of a statement speaks of every well made log that has at least as many entries as the receipt's size, whose first
/// ones have the receipt's root, where no string that the receipt's path hashes collides with one that this root hashes. The entry at the
/// receipt's index is the statement, with the receipt's moment and rule, and the log before it judged the statement at that moment to be
/// admitted by that rule.
pub fn accepted_receipts_are_of_the_log()
    ensures { AcceptedIsOfTheLog }
{
    entries_were_admitted();
    growth_laws();
    accepted_receipts_mean_entries();
    statements_have_one_answer();
    logged_form_is_the_statement();
    strict_item_is_exact();
    strict_text_is_exact();
    whole_bytes_have_one_answer();
}

/// A law: a well made log whose records are byte strings has a receipt for each of its entries. It is one, and to whoever trusts the log's key
/// it shows by the standard's path (RFC 9162, 2.1.3.1) that the entry stands in the tree of the entries up to and with it.
pub fn entries_have_receipts()
    ensures { EntriesHaveReceipts }
{
    entries_were_admitted();
    answer_laws();
    growth_laws();
    limit_laws();
    receipts_are_read_again();
    mth_laws();
    path_laws();
    strict_item_is_exact();
    strict_text_is_exact();
    strict_items_are_spelled();
    strict_item_by_kind();
}

/// A law: a statement of a well made log whose records are byte strings, to which the log's receipt of its entry was attached, is accepted where
/// the first service of the trust with the log's name and the kid of its key has that key, and where the statement's issuer isn't asked for, or
/// the first issuer that it names verifies its signature. The receipt, the last one, is accepted with the entry's index, moment and rule,
/// and with the size and root of the tree of the entries up to and with it.
pub fn own_receipts_are_accepted()
    ensures { OwnReceiptsAreAccepted }
{
    entries_have_receipts();
    growth_laws();
    shown_entries_are_accepted();
    statements_have_one_answer();
    attached_statement_is_the_same();
}

/// A law: an accepted consistency receipt speaks of every two well made logs, the one with the older root at the older size and the other with
/// the newer root at the newer size, where no string that is hashed for these roots and for the receipt's proof collides with another. The
/// second log begins with the first one's entries up to the older size.
pub fn consistent_logs_begin_alike()
    ensures { ConsistentIsOfTheLogs }
{
    growth_laws();
    consistent_receipts_mean_growth();
}

/// A law: a well made log whose records are byte strings has a consistency receipt for each older size from 1 up to its entries. It is one, and
/// to whoever trusts the log's key it shows by the standard's proof (RFC 9162, 2.1.4.1) that all the entries grew from the first ones.
pub fn sizes_have_consistency_receipts()
    ensures { SizesHaveConsistency }
{
    entries_were_admitted();
    answer_laws();
    growth_laws();
    limit_laws();
    receipts_are_read_again();
    mth_laws();
    proof_laws();
    strict_item_is_exact();
    strict_text_is_exact();
    strict_items_are_spelled();
    strict_item_by_kind();
}

/// A law: the consistency receipt of a well made log whose records are byte strings is accepted after the root of its first entries, up to the
/// older size, where the first service of the trust with the log's name and the kid of its key has that key. What is answered is the size and
/// root of the whole log.
pub fn own_consistency_is_accepted()
    ensures { OwnConsistencyIsAccepted }
{
    sizes_have_consistency_receipts();
    growth_laws();
    shown_growth_is_accepted();
}
