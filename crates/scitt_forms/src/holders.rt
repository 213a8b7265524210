// Holders of keys: a name, a key of 60 bytes, and the key's name.

ghost use Rattle.std.specs.Prelude.{◌≡◌, Ok, Err, IfOk, option_map};
ghost use Rattle.sha2.specs.Sha256.{sha256};
ghost use Rattle.toml.specs.View.{view, table_view};
ghost use Rattle.scitt_forms.specs.Fields.{under as at_key};
ghost use Rattle.scitt_forms.specs.Holders as told;

use crate::fields::{
    Said, all_known, as_members, as_text, bytes_of, key_at, placed, refusal, text_at, under,
};
use crate::items::{bytes, text, three};
use crate::refusal::{Place, Refusal, Why, Word};
use cbor_core::{Bytes, Item};
use policy_rules::Key60;
use sha2::{Digest, Sha256};
use std::alloc::{AllocError, Global};
use toml::{Table, Value};

fn digest(alloc: Global, key: &Key60) -> Result<Bytes, AllocError>
    ensures { IfOk result (λ kid. kid ≡ sha256 key.now) }
{
    let kid = Sha256::digest(key.as_slice());
    Bytes::from_slice(alloc, kid.as_slice())
}

// The key's name: the bytes that are given, or the digest.
fn kid_of(alloc: Global, place: Place, key: &Key60, given: Option<&Value>) -> Said<Bytes>
    ensures { IfOk result (λ kid. kid ≡ told.kid_from place key.now (option_map (λ v. view v.now) given.entry)) }
{
    let Some(value) = given else {
        return Ok(Ok(digest(alloc, key)?));
    };
    match as_text(place, Word::Kid, value) {
        Ok(text) => bytes_of(alloc, place, Word::Kid, text),
        Err(r) => Ok(Err(r)),
    }
}

fn kid_at(alloc: Global, place: Place, key: &Key60, table: &Table) -> Said<Bytes>
    ensures { IfOk result (λ kid. kid ≡ told.kid_from place key.now (at_key Word.Kid (table_view table.now))) }
{
    kid_of(alloc, place, key, under(table, Word::Kid))
}

fn item_of(alloc: Global, iss: &str, kid: &Bytes, key: &Key60) -> Result<Item, AllocError>
    ensures { IfOk result (λ item. item ≡ told.three iss.now key.now kid.now) }
{
    let iss = text(alloc, iss)?;
    let kid = bytes(alloc, kid.as_slice())?;
    let key = bytes(alloc, key.as_slice())?;
    three(alloc, iss, kid, key)
}

fn with_kid(alloc: Global, iss: &str, key: &Key60, kid: Result<Bytes, Refusal>) -> Said<Item>
    ensures { IfOk result (λ item. item ≡ told.with_kid iss.now key.now kid) }
{
    match kid {
        Ok(kid) => Ok(Ok(item_of(alloc, iss, &kid, key)?)),
        Err(r) => Ok(Err(r)),
    }
}

fn with_key(alloc: Global, place: Place, iss: &str, table: &Table) -> Said<Item>
    ensures { IfOk result (λ item. item ≡ told.with_key place (table_view table.now) iss.now) }
{
    match key_at(place, table) {
        Ok(key) => {
            let kid = kid_at(alloc, place, &key, table)?;
            with_kid(alloc, iss, &key, kid)
        }
        Err(r) => Ok(Err(r)),
    }
}

/// The holder `[iss, kid, key]` that a table says.
pub(crate) fn holder_of(alloc: Global, place: Place, table: &Table) -> Said<Item>
    ensures { IfOk result (λ item. item ≡ told.holder_said place (table_view table.now)) }
{
    if !all_known(&[Word::Iss, Word::Kid, Word::Key], table) {
        return Ok(Err(refusal(place, Word::Keys, Why::Unknown)));
    }
    match text_at(place, Word::Iss, table) {
        Ok(iss) => with_key(alloc, place, iss, table),
        Err(r) => Ok(Err(r)),
    }
}

/// The holder that an item of a list says.
pub(crate) fn holder_at(alloc: Global, list: Word, index: usize, value: &Value) -> Said<Item>
    ensures { IfOk result (λ item. item ≡ told.holder_at list index (view value.now)) }
{
    let place = placed(list, index);
    match as_members(place, list, value) {
        Ok(table) => holder_of(alloc, place, table),
        Err(r) => Ok(Err(r)),
    }
}
