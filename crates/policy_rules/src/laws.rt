// Laws of documents.

ghost use Rattle.std.specs.Prelude.{◌≡◌, ℕ, Some, Ok};
ghost use Rattle.cbor_core.specs.declared.tree.Item.{Item};
ghost use Rattle.policy_rules.specs.declared.conditions.Cond.{Cond};
ghost use Rattle.policy_rules.specs.declared.documents.Policy.{Policy};
ghost use Rattle.policy_rules.specs.Conditions.{cond_in};
ghost use Rattle.policy_rules.specs.Documents.{policy_in};
ghost use Rattle.policy_rules.specs.OneAnswer.{SomeAnswer, OneAnswer, DocumentIsExact};
ghost use Rattle.policy_rules.specs.Spelling.{cond_item, policy_item, IsDocument};

use cbor_core::{strict_item_is_exact, whole_bytes_have_one_answer};

/// A law: an item that is read as a condition is the item that the condition is written as.
pub fn conditions_are_spelled_once()
    ensures spelled { (depth : ℕ) (item : Item) (cond : Cond) → cond_in depth item ≡ Some cond → cond_item cond ≡ item }
{}

/// A law: an item that is read as a policy document is the item that the policy is written as, and the policy meets the rules of
/// documents.
pub fn documents_are_spelled_once()
    ensures spelled { (item : Item) (policy : Policy) → policy_in item ≡ Ok policy → policy_item policy ≡ item }
    ensures meets { (item : Item) (policy : Policy) → policy_in item ≡ Ok policy → IsDocument policy }
{}

/// A law: all bytes are one policy document, or have one first thing that is wrong, and never both. So `decode` refuses exactly where
/// something is wrong, unless memory is wanting. `document_of` gives the document as a function of the bytes.
pub fn documents_have_one_answer()
    ensures some { SomeAnswer }
    ensures one { OneAnswer }
    ensures exact { DocumentIsExact }
{
    whole_bytes_have_one_answer();
    strict_item_is_exact();
}
