// The keys of a form's tables, and what they hold.

ghost use Rattle.std.specs.Prelude.{◌≡◌, Ok, Err, IfOk, MatchResult, option_map};
ghost use Rattle.toml.specs.View.{view, array_view, table_view};
ghost use Rattle.scitt_forms.specs.Fields as told;

use crate::refusal::{Place, Refusal, Why, Word};
use cbor_core::Bytes;
use hex::{FromHex, FromHexError};
use policy_rules::Key60;
use std::alloc::{AllocError, Global};
use toml::value::Array;
use toml::{Table, Value};

/// What a part of a form says, or why it isn't taken, unless memory runs out.
pub(crate) type Said<T> = Result<Result<T, Refusal>, AllocError>;

pub(crate) fn refusal(place: Place, word: Word, why: Why) -> Refusal
    ensures { result ≡ record { place = place; word = word; why = why } }
{
    Refusal { place, word, why }
}

/// The place of a table in a list.
pub(crate) fn placed(list: Word, index: usize) -> Place
    ensures { result ≡ told.placed list index }
{
    Place { list, index }
}

/// The place of what stands in no list.
pub(crate) fn form() -> Place
    ensures { result ≡ told.form }
{
    placed(Word::Form, 0)
}

/// The value under a key, or none.
pub(crate) fn under(table: &Table, word: Word) -> Option<&Value>
    ensures { option_map (λ v. view v.now) result ≡ told.under word (table_view table.now) }
{
    table.get(word.name())
}

/// The value under a key that must stand.
pub(crate) fn value(place: Place, word: Word, table: &Table) -> Result<&Value, Refusal>
    ensures { MatchResult result
        (λ v. told.value_said place word (table_view table.now) ≡ Ok (view v.now))
        (λ r. told.value_said place word (table_view table.now) ≡ Err r) }
{
    match under(table, word) {
        Some(value) => Ok(value),
        None => Err(refusal(place, word, Why::Missing)),
    }
}

/// A value as a text.
pub(crate) fn as_text(place: Place, word: Word, value: &Value) -> Result<&str, Refusal>
    ensures { MatchResult result
        (λ s. told.as_text place word (view value.now) ≡ Ok s.now)
        (λ r. told.as_text place word (view value.now) ≡ Err r) }
{
    match value.as_str() {
        Some(text) => Ok(text),
        None => Err(refusal(place, word, Why::Kind)),
    }
}

/// A value as a number that isn't negative.
pub(crate) fn as_number(place: Place, word: Word, value: &Value) -> Result<u64, Refusal>
    ensures { result ≡ told.as_number place word (view value.now) }
{
    match value.as_integer() {
        Some(n) => unsigned(place, word, n),
        None => Err(refusal(place, word, Why::Kind)),
    }
}

fn unsigned(place: Place, word: Word, n: i64) -> Result<u64, Refusal>
    ensures { result ≡ told.unsigned place word n }
{
    if n < 0 {
        return Err(refusal(place, word, Why::Negative));
    }
    Ok(n as u64)
}

/// A value as a table.
pub(crate) fn as_members(place: Place, word: Word, value: &Value) -> Result<&Table, Refusal>
    ensures { MatchResult result
        (λ t. told.as_members place word (view value.now) ≡ Ok (table_view t.now))
        (λ r. told.as_members place word (view value.now) ≡ Err r) }
{
    match value.as_table() {
        Some(table) => Ok(table),
        None => Err(refusal(place, word, Why::Kind)),
    }
}

/// A value as an array.
pub(crate) fn as_items(place: Place, word: Word, value: &Value) -> Result<&Array, Refusal>
    ensures { MatchResult result
        (λ t. told.as_items place word (view value.now) ≡ Ok (array_view t.now))
        (λ r. told.as_items place word (view value.now) ≡ Err r) }
{
    match value.as_array() {
        Some(items) => Ok(items),
        None => Err(refusal(place, word, Why::Kind)),
    }
}

/// The text under a key.
pub(crate) fn text_at(place: Place, word: Word, table: &Table) -> Result<&str, Refusal>
    ensures { MatchResult result
        (λ s. told.text_said place word (table_view table.now) ≡ Ok s.now)
        (λ r. told.text_said place word (table_view table.now) ≡ Err r) }
{
    match value(place, word, table) {
        Ok(value) => as_text(place, word, value),
        Err(r) => Err(r),
    }
}

/// The number under a key.
pub(crate) fn number_at(place: Place, word: Word, table: &Table) -> Result<u64, Refusal>
    ensures { result ≡ told.number_said place word (table_view table.now) }
{
    match value(place, word, table) {
        Ok(value) => as_number(place, word, value),
        Err(r) => Err(r),
    }
}

/// The key of 60 bytes under `key`, as 120 hexadecimal digits.
pub(crate) fn key_at(place: Place, table: &Table) -> Result<Key60, Refusal>
    ensures { result ≡ told.key_said place (table_view table.now) }
{
    match text_at(place, Word::Key, table) {
        Ok(text) => key_of(place, text),
        Err(r) => Err(r),
    }
}

fn key_of(place: Place, text: &str) -> Result<Key60, Refusal>
    ensures { result ≡ told.key_of place text.now }
{
    match <[u8; 60] as FromHex>::from_hex(text) {
        Ok(key) => Ok(key),
        Err(_) => Err(refusal(place, Word::Key, Why::Hex)),
    }
}

/// The bytes of hexadecimal digits.
pub(crate) fn bytes_of(alloc: Global, place: Place, word: Word, text: &str) -> Said<Bytes>
    ensures { IfOk result (λ bytes. bytes ≡ told.bytes_of place word text.now) }
{
    match hex::decode(alloc, text) {
        Ok(bytes) => Ok(Ok(Bytes::from_vec(bytes))),
        Err(FromHexError::OutOfMemory) => Err(AllocError),
        Err(_) => Ok(Err(refusal(place, word, Why::Hex))),
    }
}

fn is_known(known: &[Word], key: &str) -> bool
    ensures { result ≡ told.is_known known.now key.now }
{
    known.iter().any(|word| word.name() == key)
}

/// Whether each key of the table is one of these.
pub(crate) fn all_known(known: &[Word], table: &Table) -> bool
    ensures { result ≡ told.all_known known.now (table_view table.now) }
{
    'members: for (key, _value) in table.iter() {
        if !is_known(known, key.as_str()) {
            return false;
        }
    }
    true
}
