// The bytes of the trust file that a text says.

ghost use Rattle.std.specs.Prelude.{◌≡◌, IfOk, Ok};
ghost use Rattle.cbor_core.specs.declared.words.Grammar.TheVariants.{Strict};
ghost use Rattle.cbor_core.specs.Items.{array_in};
ghost use Rattle.cbor_core.specs.Spells.{Spells};
ghost use Rattle.relying_party.specs.TrustFiles.{TrustOf};
ghost use Rattle.scitt_forms.specs.Trusts.{trust_item_said};
ghost use Rattle.scitt_forms.specs.Writing.{item_said, Writes};
ghost use Rattle.write_trust.specs.WritesTrust.{has_between as is_between, past_of_parts, past_word, limits as limits_at, trust_doc, WritesTrust};

use cbor_core::{Bytes, Item, array_of, whole_bytes_have_one_answer};
use relying_party::{Trust, TrustStop};
use scitt_forms::{FormStop, Place, Refusal, Why, Word, bytes_of_item, table_of, trust_item};
use std::alloc::{AllocError, Global};

// A limit of trust files is broken at this key.
fn limits(word: Word) -> Refusal
    ensures { result ≡ limits_at word }
{
    Refusal {
        place: Place {
            list: Word::Form,
            index: 0,
        },
        word,
        why: Why::Limits,
    }
}

// An array of so many items.
fn has_between(low: usize, high: usize, item: &Item) -> bool
    ensures { result ≡ is_between low high (array_in item.now) }
{
    match array_of(item) {
        Some(items) => low <= items.len() && items.len() <= high,
        None => false,
    }
}

fn past_of(services: &Item, issuers: &Item) -> Word
    ensures { result ≡ past_of_parts services.now issuers.now }
{
    if !has_between(1, 64, services) {
        return Word::Service;
    }
    if !has_between(0, 256, issuers) {
        return Word::Issuer;
    }
    Word::Form
}

// The key of the list that breaks a limit.
fn past(item: &Item) -> Word
    ensures { result ≡ past_word item.now }
{
    match array_of(item) {
        Some([_form, services, issuers]) => past_of(services, issuers),
        _ => Word::Form,
    }
}

// The bytes of this item, where it is a trust file.
fn judged_bytes(alloc: Global, item: &Item, bytes: Bytes) -> Result<Bytes, FormStop>
    requires { Spells Strict item.now bytes }
    ensures { Writes TrustOf trust_doc (Ok item.now) result }
{
    whole_bytes_have_one_answer();
    match Trust::decode(alloc, bytes.as_slice()) {
        Ok(_trust) => Ok(bytes),
        Err(TrustStop::BadTrust) => Err(FormStop::Refused(limits(past(item)))),
        // No strict bytes have a fault.
        Err(TrustStop::Cbor(_fault)) => Err(FormStop::TooLong),
        Err(TrustStop::OutOfMemory) => Err(FormStop::OutOfMemory),
    }
}

// The item's bytes, where it is a trust file.
fn judged(alloc: Global, item: &Item) -> Result<Bytes, FormStop>
    ensures { Writes TrustOf trust_doc (Ok item.now) result }
{
    match bytes_of_item(alloc, item) {
        Ok(bytes) => judged_bytes(alloc, item, bytes),
        Err(stop) => Err(stop),
    }
}

fn item_of(alloc: Global, text: &str) -> Result<Result<Item, Refusal>, AllocError>
    ensures { IfOk result (λ item. item ≡ item_said trust_item_said text.now) }
{
    match table_of(alloc, text)? {
        Ok(table) => trust_item(alloc, &table),
        Err(r) => Ok(Err(r)),
    }
}

/// The strict bytes of the trust file that a text says.
///
/// `Refused` is the first reason why it says none: the text is no TOML, a key is unknown, missing or of another kind, digits aren't
/// hexadecimal, or there are too many or too few services or issuers. `TooLong` comes only where what it says has no strict bytes, and
/// `OutOfMemory` is the want of memory alone.
pub fn write_trust(alloc: Global, text: &str) -> Result<Bytes, FormStop>
    ensures { WritesTrust text.now result }
{
    match item_of(alloc, text) {
        Ok(Ok(item)) => judged(alloc, &item),
        Ok(Err(r)) => Err(FormStop::Refused(r)),
        Err(_) => Err(FormStop::OutOfMemory),
    }
}
