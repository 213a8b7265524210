// The bytes of the policy that a text says.

ghost use Rattle.std.specs.Prelude.{◌≡◌, IfOk, Ok};
ghost use Rattle.cbor_core.specs.declared.words.Grammar.TheVariants.{Strict};
ghost use Rattle.cbor_core.specs.Spells.{Spells};
ghost use Rattle.policy_rules.specs.Documents.{PolicyOf};
ghost use Rattle.scitt_forms.specs.Policies.{policy_item_said};
ghost use Rattle.scitt_forms.specs.Writing.{item_said, word_of as word_of_place, policy_doc, Writes, WritesPolicy};

use crate::fields::{form, refusal};
use crate::policy::policy_item;
use crate::refusal::{Refusal, Why, Word};
use crate::stop::FormStop;
use crate::texts::{bytes_of_item, table_of};
use cbor_core::{Bytes, Item, whole_bytes_have_one_answer};
use policy_rules::{PolicyStop, decode};
use std::alloc::{AllocError, Global};

fn word_of(place: u8) -> Word
    ensures { result ≡ word_of_place place }
{
    match place {
        2 => Word::Version,
        3 => Word::Governor,
        4 => Word::Issuer,
        5 => Word::Rule,
        _ => Word::Form,
    }
}

// The bytes of this item, where it is a document.
fn judged_bytes(alloc: Global, item: &Item, bytes: Bytes) -> Result<Bytes, FormStop>
    requires { Spells Strict item.now bytes }
    ensures { Writes PolicyOf policy_doc (Ok item.now) result }
{
    let _ = item;
    whole_bytes_have_one_answer();
    match decode(alloc, bytes.as_slice()) {
        Ok(_policy) => Ok(bytes),
        Err(PolicyStop::BadPolicy(place)) => Err(FormStop::Refused(refusal(
            form(),
            word_of(place),
            Why::Limits,
        ))),
        // No strict bytes have a fault.
        Err(PolicyStop::Cbor(_fault)) => Err(FormStop::TooLong),
        Err(PolicyStop::OutOfMemory) => Err(FormStop::OutOfMemory),
    }
}

// The item's bytes, where it is a document.
fn judged(alloc: Global, item: &Item) -> Result<Bytes, FormStop>
    ensures { Writes PolicyOf policy_doc (Ok item.now) result }
{
    match bytes_of_item(alloc, item) {
        Ok(bytes) => judged_bytes(alloc, item, bytes),
        Err(stop) => Err(stop),
    }
}

fn item_of(alloc: Global, text: &str) -> Result<Result<Item, Refusal>, AllocError>
    ensures { IfOk result (λ item. item ≡ item_said policy_item_said text.now) }
{
    match table_of(alloc, text)? {
        Ok(table) => policy_item(alloc, &table),
        Err(r) => Ok(Err(r)),
    }
}

/// The strict bytes of the policy document that a text says.
///
/// `Refused` is the first reason why it says none: the text is no TOML, a key is unknown, missing or of another kind, digits aren't
/// hexadecimal, or a rule of documents is broken. `TooLong` comes only where what it says has no strict bytes, and `OutOfMemory` is
/// the want of memory alone.
pub fn write_policy(alloc: Global, text: &str) -> Result<Bytes, FormStop>
    ensures { WritesPolicy text.now result }
{
    match item_of(alloc, text) {
        Ok(Ok(item)) => judged(alloc, &item),
        Ok(Err(r)) => Err(FormStop::Refused(r)),
        Err(_) => Err(FormStop::OutOfMemory),
    }
}
