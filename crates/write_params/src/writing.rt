// The bytes of the parameter file that a text says.

ghost use Rattle.std.specs.Prelude.{◌≡◌, IfOk, Ok, None};
ghost use Rattle.cbor_core.specs.declared.words.Grammar.TheVariants.{Strict};
ghost use Rattle.cbor_core.specs.Items.{array_in, bytes_in, text_in, uint_in};
ghost use Rattle.cbor_core.specs.Spells.{Spells};
ghost use Rattle.log_params.specs.ParamFiles.{ParamsOf};
ghost use Rattle.scitt_forms.specs.Params.{params_item_said};
ghost use Rattle.scitt_forms.specs.Writing.{item_said, Writes};
ghost use Rattle.write_params.specs.WritesParams.{has_between, is_between, governor_fits as fits, past_of_parts, past_word, limits as limits_at, params_doc, WritesParams};

use cbor_core::{Bytes, Item, array_of, bytes_of, text_of, uint_of, whole_bytes_have_one_answer};
use log_params::{ParamsStop, decode};
use scitt_forms::{FormStop, Place, Refusal, Why, Word, bytes_of_item, params_item, table_of};
use std::alloc::{AllocError, Global};

// A limit of parameter files is broken at this key.
fn limits(word: Word) -> Refusal
    ensures { result ≡ limits_at word }
{
    Refusal {
        place: Place {
            list: Word::Form,
            index: 0,
        },
        word,
        why: Why::Limits,
    }
}

// A text of so many bytes.
fn is_text(low: usize, high: usize, item: &Item) -> bool
    ensures { result ≡ has_between low high (text_in item.now) }
{
    match text_of(item) {
        Some(text) => low <= text.len() && text.len() <= high,
        None => false,
    }
}

// A byte string of so many bytes.
fn is_bytes(low: usize, high: usize, item: &Item) -> bool
    ensures { result ≡ has_between low high (bytes_in item.now) }
{
    match bytes_of(item) {
        Some(bytes) => low <= bytes.len() && bytes.len() <= high,
        None => false,
    }
}

// A number from one to another.
fn is_number(low: u64, high: u64, item: &Item) -> bool
    ensures { result ≡ is_between low high (uint_in item.now) }
{
    match uint_of(item) {
        Some(n) => low <= n && n <= high,
        None => false,
    }
}

fn governor_fits(item: &Item) -> bool
    ensures { result ≡ fits (array_in item.now) }
{
    match array_of(item) {
        Some([iss, kid, _key]) => is_text(1, 1024, iss) && is_bytes(1, 64, kid),
        _ => false,
    }
}

fn past_of(name: &Item, governor: &Item, max_entries: &Item, block: &Item) -> Option<Word>
    ensures { result ≡ past_of_parts name.now governor.now max_entries.now block.now }
{
    if !is_text(1, 128, name) {
        return Some(Word::Name);
    }
    if !governor_fits(governor) {
        return Some(Word::Governor);
    }
    if !is_number(1, 65_536, max_entries) {
        return Some(Word::MaxEntries);
    }
    if !is_number(1, 64, block) {
        return Some(Word::Block);
    }
    None
}

// The key of the first part that breaks a limit.
fn past(item: &Item) -> Option<Word>
    ensures { result ≡ past_word item.now }
{
    match array_of(item) {
        Some([_form, name, governor, _levels, max_entries, block]) => {
            past_of(name, governor, max_entries, block)
        }
        _ => None,
    }
}

// The bytes of this item, where it is a parameter file.
fn read_bytes(alloc: Global, item: &Item, bytes: Bytes) -> Result<Bytes, FormStop>
    requires spelled { Spells Strict item.now bytes }
    requires within { past_word item.now ≡ None }
    ensures { Writes ParamsOf params_doc (Ok item.now) result }
{
    let _ = item;
    whole_bytes_have_one_answer();
    match decode(alloc, bytes.as_slice()) {
        Ok(_params) => Ok(bytes),
        Err(ParamsStop::BadParams) => Err(FormStop::Refused(limits(Word::Form))),
        // No strict bytes have a fault.
        Err(ParamsStop::Cbor(_fault)) => Err(FormStop::TooLong),
        Err(ParamsStop::OutOfMemory) => Err(FormStop::OutOfMemory),
    }
}

// The bytes of this item, where it is a parameter file within the limits.
fn judged_bytes(alloc: Global, item: &Item, bytes: Bytes) -> Result<Bytes, FormStop>
    requires { Spells Strict item.now bytes }
    ensures { Writes ParamsOf params_doc (Ok item.now) result }
{
    match past(item) {
        Some(word) => Err(FormStop::Refused(limits(word))),
        None => read_bytes(alloc, item, bytes),
    }
}

// The item's bytes, where it is a parameter file.
fn judged(alloc: Global, item: &Item) -> Result<Bytes, FormStop>
    ensures { Writes ParamsOf params_doc (Ok item.now) result }
{
    match bytes_of_item(alloc, item) {
        Ok(bytes) => judged_bytes(alloc, item, bytes),
        Err(stop) => Err(stop),
    }
}

fn item_of(alloc: Global, text: &str) -> Result<Result<Item, Refusal>, AllocError>
    ensures { IfOk result (λ item. item ≡ item_said params_item_said text.now) }
{
    match table_of(alloc, text)? {
        Ok(table) => params_item(alloc, &table),
        Err(r) => Ok(Err(r)),
    }
}

/// The strict bytes of the parameter file that a text says.
///
/// `Refused` is the first reason why it says none: the text is no TOML, a key is unknown, missing or of another kind, digits aren't
/// hexadecimal, the levels have no such name, or a limit of a log's header is broken: a name of 1 to 128 bytes, an issuer of the governor
/// of 1 to 1,024 and a kid of 1 to 64, 1 to 65,536 entries, and a block of 1 to 64. `TooLong` comes only where what it says has no strict
/// bytes, and `OutOfMemory` is the want of memory alone.
pub fn write_params(alloc: Global, text: &str) -> Result<Bytes, FormStop>
    ensures { WritesParams text.now result }
{
    match item_of(alloc, text) {
        Ok(Ok(item)) => judged(alloc, &item),
        Ok(Err(r)) => Err(FormStop::Refused(r)),
        Err(_) => Err(FormStop::OutOfMemory),
    }
}
