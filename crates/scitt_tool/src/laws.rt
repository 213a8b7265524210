ghost use Rattle.scitt_tool.specs.Replay.{OnePlay};
ghost use Rattle.scitt_tool.specs.ToolText.{OneText, SomeText};

use auditor::report_laws;
use cbor_core::{
    keys_are_compared_as_items, strict_is_wide, strict_item_by_kind, strict_items_are_spelled,
    strict_len_by_kind, strict_spelling_is_unique, whole_bytes_have_one_answer,
};
use cose_sign1::{
    bare_message_is_one, message_strings_are_short, messages_have_one_answer, tag_stands_first,
};
use hss_keys::hss_law;
use policy_rules::documents_have_one_answer;
use relying_party::{trust_files_have_one_answer, verdicts_are_one};
use scitt_journal::journal_laws;
use scitt_script::bytes_are_one_script;
use statement::statements_have_one_answer;

/// A law: words, files, a key file and random bytes call for one status, text and key file afterwards, and no other, where the command
/// is another than `replay`. What `replay` refuses it always refuses, by one line; two other texts of it were heard in sessions of one
/// script.
pub fn words_and_files_have_one_text()
    ensures some { SomeText }
    ensures one { OneText }
    ensures played { OnePlay }
{
    whole_bytes_have_one_answer();
    tag_stands_first();
    messages_have_one_answer();
    strict_spelling_is_unique();
    statements_have_one_answer();
    documents_have_one_answer();
    report_laws();
    trust_files_have_one_answer();
    verdicts_are_one();
    journal_laws();
    bytes_are_one_script();
    keys_are_compared_as_items();
    strict_is_wide();
    strict_item_by_kind();
    strict_len_by_kind();
    strict_items_are_spelled();
    message_strings_are_short();
    bare_message_is_one();
    hss_law();
}
