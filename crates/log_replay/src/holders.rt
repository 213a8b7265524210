// Holders of keys, and levels, as items spell them.

ghost use Rattle.std.specs.Prelude.{◌≡◌, ◌==◌, ℕ, [], Some, None, length, if◌then◌else◌, IfOk, option_and_then};
ghost use Rattle.cbor_core.specs.Items.{bytes_in, text_in};
ghost use Rattle.policy_rules.specs.Conditions.{each_onto};
ghost use Rattle.log_replay.specs.Records.{any_holder_in, level_by, level_in, levels_in};

use cbor_core::{Bytes, Item, Text, array_of, bytes_of, text_of, uint_of};
use hss_keys::Key60;
use lms_ots::ots_type;
use lms_tree::{Level, lms_type};
use policy_rules::Holder;
use sqlite_items::Items;
use std::alloc::{AllocError, Global};

/// A copy of the text that an item is.
pub fn text_copied(alloc: Global, item: &Item) -> Result<Option<Text>, AllocError>
    ensures { IfOk result (λ text. text ≡ text_in item.now) }
{
    match text_of(item) {
        Some(text) => Ok(Some(Text::from_str(alloc, text)?)),
        None => Ok(None),
    }
}

/// A copy of the byte string that an item is.
pub(crate) fn bytes_copied(alloc: Global, item: &Item) -> Result<Option<Bytes>, AllocError>
    ensures { IfOk result (λ bytes. bytes ≡ bytes_in item.now) }
{
    match bytes_of(item) {
        Some(bytes) => Ok(Some(Bytes::from_slice(alloc, bytes)?)),
        None => Ok(None),
    }
}

/// The public key of 60 bytes that an item is (RFC 8554, 6).
pub(crate) fn key_of(item: &Item) -> Option<Key60>
    ensures { result ≡ option_and_then (λ key. if length key == 60 then Some key else None) (bytes_in item.now) }
{
    match bytes_of(item)?.as_array::<60>() {
        Some(key) => Some(*key),
        None => None,
    }
}

/// The holder `[iss, kid, key]` that an item is.
pub fn holder_of(alloc: Global, item: &Item) -> Result<Option<Holder>, AllocError>
    ensures { IfOk result (λ holder. holder ≡ any_holder_in item.now) }
{
    let Some([iss, kid, key]) = array_of(item) else {
        return Ok(None);
    };
    let Some(iss) = text_copied(alloc, iss)? else {
        return Ok(None);
    };
    let Some(kid) = bytes_copied(alloc, kid)? else {
        return Ok(None);
    };
    match key_of(key) {
        Some(key) => Ok(Some(Holder { iss, kid, key })),
        None => Ok(None),
    }
}

fn level_of_codes(lms: u64, ots: u64) -> Option<Level>
    ensures { result ≡ level_by lms ots }
{
    let lms = lms_type(u32::try_from(lms).ok()?)?;
    let ots = ots_type(u32::try_from(ots).ok()?)?;
    Some(Level { lms, ots })
}

fn level_of(item: &Item) -> Option<Level>
    ensures { result ≡ level_in item.now }
{
    let Some([lms, ots]) = array_of(item) else {
        return None;
    };
    level_of_codes(uint_of(lms)?, uint_of(ots)?)
}

fn each_level(alloc: Global, items: &[Item]) -> Result<Option<Items<Level>>, AllocError>
    ensures { IfOk result (λ levels. levels ≡ each_onto level_in [] items.now) }
{
    let mut levels = Items::new(alloc);
    for item in items {
        match level_of(item) {
            Some(level) => levels.push(level)?,
            None => return Ok(None),
        }
    }
    Ok(Some(levels))
}

/// The levels that an item is, an array of pairs of types by their numbers (RFC 8554, tables 1 and 2).
pub fn any_levels_of(alloc: Global, item: &Item) -> Result<Option<Items<Level>>, AllocError>
    ensures { IfOk result (λ levels. levels ≡ levels_in item.now) }
{
    match array_of(item) {
        Some(items) => each_level(alloc, items),
        None => Ok(None),
    }
}
