// The bodies of records and the bytes of entries.

ghost use Rattle.std.specs.Prelude.{◌≡◌, ℕ, ◌+◌, ◌<◌, ◌≤◌, ◌^◌, List, [], ◌∷◌, length, map, true, Some, All, IfOk};
ghost use Rattle.std.specs.Str.{is_utf8};
ghost use Rattle.cbor_core.specs.Items.{uint_item, bytes_item, text_item, array_item};
ghost use Rattle.cbor_core.specs.Limits.{most_containers};
ghost use Rattle.cbor_core.specs.Encoding.{most};
ghost use Rattle.cbor_core.specs.Exact.{strict_text};
ghost use Rattle.cbor_core.specs.Fitting.{is_strict_item, strict_len};
ghost use Rattle.policy_rules.specs.declared.documents.Holder.{Holder};
ghost use Rattle.policy_rules.specs.Documents.{bootstrap_of};
ghost use Rattle.policy_rules.specs.Spelling.{holder_item, policy_item};
ghost use Rattle.log_replay.specs.declared.parts.Header.{Header};
ghost use Rattle.statement.specs.Said.{said_of};
ghost use Rattle.log_replay.specs.Records.{header_record, reserve_record, batch_record, record_item, level_item, entry_item, entry_of};
ghost use Rattle.log_replay.specs.Spelling.{IsWritten, FitsIn, HasBytes, IsBodyOf, IsEntryOf, entry_bytes as bytes_of_entry};
ghost use Rattle.log_replay.specs.Steps.{entry_text};
ghost use Rattle.log_replay.specs.WellMade.{is_within_limits};

use crate::checked::reads_again;
use crate::parts::Header;
use cbor_core::{
    Bytes, EncodeStop, Item, Node, Text, encode, strict_item_by_kind, strict_item_is_exact,
    strict_items_are_spelled, strict_len_by_kind, strict_spelling_is_unique, strict_text_is_exact,
};
use hss_keys::Key60;
use lms_tree::Level;
use policy_rules::{Holder, Policy, encode as encode_policy};
use sqlite_items::Items;
use statement::{Blobs, Statement};
use std::alloc::{AllocError, Global};

/// A law: records, entries and bootstrap policies within the limits have strict bytes, and few enough.
pub fn shape_laws()
    ensures reserve { (upto : ℕ) → upto < 2 ^ 64 → FitsIn 27 (record_item (reserve_record upto)) }
    ensures entry { (at rule : ℕ) (logged : List ℕ) → at < 2 ^ 64 → rule ≤ 65535 → length logged ≤ 4194304
        → FitsIn (45 + length logged) (entry_item at rule logged) }
    ensures batch { (entry signature : List ℕ) (index : ℕ) → length entry ≤ 4198400 → length signature ≤ 4194304 → index < 2 ^ 64
        → FitsIn 8392758 (record_item (batch_record (record { entries = entry ∷ []; index = index; signature = signature }))) }
    ensures header { (h : Header) → length h.name ≤ 128 → is_utf8 h.name ≡ true → length h.governor.iss ≤ 1024
        → is_utf8 h.governor.iss ≡ true → length h.governor.kid ≤ 64 → length h.governor.key ≡ 60 → length h.key ≡ 60
        → length h.levels ≤ 3 → h.max_entries < 2 ^ 64 → h.block < 2 ^ 64 → FitsIn 2000 (record_item (header_record h)) }
    ensures bootstrap { (g : Holder) → length g.iss ≤ 1024 → is_utf8 g.iss ≡ true → length g.kid ≤ 64 → length g.key ≡ 60
        → FitsIn 1300 (policy_item (bootstrap_of g)) }
{
    strict_item_by_kind();
    strict_len_by_kind();
}

/// A law: the bytes of a statement's entry read as that entry, and the logged form is short enough for them.
pub fn entry_law(statement: &Statement, at: u64, rule: u16)
    ensures reads { entry_of (entry_text at rule (said_of statement.now)) ≡ Some (record { at = at; rule = rule; statement = said_of statement.now }) }
    ensures text { entry_text at rule (said_of statement.now) ≡ bytes_of_entry at rule statement.now.logged }
    ensures short { length statement.now.logged ≤ 4194304 }
{
    shape_laws();
    strict_items_are_spelled();
    reads_again(statement);
}

fn uint(n: u64) -> Item
    ensures { result ≡ uint_item n }
{
    Item {
        node: Node::Uint(n),
    }
}

fn array(items: Items<Item>) -> Item
    ensures { result ≡ array_item items }
{
    Item {
        node: Node::Array(items),
    }
}

fn text(alloc: Global, text: &Text) -> Result<Item, AllocError>
    ensures { IfOk result (λ item. item ≡ text_item text.now) }
{
    let copy = Text::from_str(alloc, text.as_str())?;
    Ok(Item {
        node: Node::Text(copy),
    })
}

fn bytes(alloc: Global, bytes: &[u8]) -> Result<Item, AllocError>
    ensures { IfOk result (λ item. item ≡ bytes_item bytes.now) }
{
    let copy = Bytes::from_slice(alloc, bytes)?;
    Ok(Item {
        node: Node::Bytes(copy),
    })
}

// The strict bytes of an item that has them.
fn strict(alloc: Global, item: &Item) -> Result<Bytes, AllocError>
    requires fits { is_strict_item most_containers item.now ≡ true }
    requires short { strict_len most_containers item.now ≤ most }
    ensures { IfOk result (λ text. IsWritten item.now text) }
{
    strict_items_are_spelled();
    strict_text_is_exact();
    strict_item_is_exact();
    strict_spelling_is_unique();
    match encode(alloc, item) {
        Ok(text) => Ok(text),
        Err(EncodeStop::NotStrict) => unreachable!(),
        Err(EncodeStop::OutOfMemory) => Err(AllocError),
    }
}

fn reserve_item(alloc: Global, upto: u64) -> Result<Item, AllocError>
    ensures { IfOk result (λ item. item ≡ record_item (reserve_record upto)) }
{
    let mut items = Items::new(alloc);
    items.push(uint(1))?;
    items.push(uint(upto))?;
    Ok(array(items))
}

/// The body of a Reserve record, `[1, upto]`.
pub fn reserve_body(alloc: Global, upto: u64) -> Result<Bytes, AllocError>
    ensures { IfOk result (IsBodyOf (reserve_record upto)) }
{
    shape_laws();
    let item = reserve_item(alloc, upto)?;
    strict(alloc, &item)
}

fn entry_item_of(alloc: Global, at: u64, rule: u16, logged: &[u8]) -> Result<Item, AllocError>
    ensures { IfOk result (λ item. item ≡ entry_item at rule logged.now) }
{
    let logged = bytes(alloc, logged)?;
    let mut items = Items::new(alloc);
    items.push(uint(1))?;
    items.push(uint(at))?;
    items.push(uint(u64::from(rule)))?;
    items.push(logged)?;
    Ok(array(items))
}

/// The bytes of an entry, `[1, at, rule, logged]`. The logged form has at most 4,194,304 bytes.
pub fn entry_bytes(alloc: Global, at: u64, rule: u16, logged: &[u8]) -> Result<Bytes, AllocError>
    requires { length logged.now ≤ 4194304 }
    ensures { IfOk result (IsEntryOf at rule logged.now) }
{
    shape_laws();
    let item = entry_item_of(alloc, at, rule, logged)?;
    strict(alloc, &item)
}

fn batch_item(alloc: Global, entry: &[u8], index: u64, signature: &[u8]) -> Result<Item, AllocError>
    ensures { IfOk result (λ item. item ≡ record_item (batch_record (record { entries = entry.now ∷ []; index = index; signature = signature.now }))) }
{
    let entry = bytes(alloc, entry)?;
    let signature = bytes(alloc, signature)?;
    let mut entries = Items::new(alloc);
    entries.push(entry)?;
    let entries = array(entries);
    let mut items = Items::new(alloc);
    items.push(uint(2))?;
    items.push(entries)?;
    items.push(uint(index))?;
    items.push(signature)?;
    Ok(array(items))
}

fn one_batch(alloc: Global, entry: &[u8], index: u64, signature: &[u8]) -> Result<Bytes, AllocError>
    requires entry { length entry.now ≤ 4198400 }
    requires signature { length signature.now ≤ 4194304 }
    ensures { IfOk result (IsBodyOf (batch_record (record { entries = entry.now ∷ []; index = index; signature = signature.now }))) }
{
    shape_laws();
    let item = batch_item(alloc, entry, index, signature)?;
    strict(alloc, &item)
}

/// The body of a Batch record, `[2, [entry], index, signature]`. There is one entry, of at most 4,198,400 bytes, and the
/// signature has at most 4,194,304.
pub fn batch_body(
    alloc: Global,
    entries: &Blobs,
    index: u64,
    signature: &[u8],
) -> Result<Bytes, AllocError>
    requires one { length entries.now ≡ 1 }
    requires entry { All (λ leaf. length leaf ≤ 4198400) entries.now }
    requires signature { length signature.now ≤ 4194304 }
    ensures { IfOk result (IsBodyOf (batch_record (record { entries = entries.now; index = index; signature = signature.now }))) }
{
    match entries.as_slice() {
        [entry] => one_batch(alloc, entry.as_slice(), index, signature),
        _ => unreachable!(),
    }
}

fn holder(alloc: Global, holder: &Holder) -> Result<Item, AllocError>
    ensures { IfOk result (λ item. item ≡ holder_item holder.now) }
{
    let iss = text(alloc, &holder.iss)?;
    let kid = bytes(alloc, holder.kid.as_slice())?;
    let key = bytes(alloc, holder.key.as_slice())?;
    let mut items = Items::new(alloc);
    items.push(iss)?;
    items.push(kid)?;
    items.push(key)?;
    Ok(array(items))
}

fn level(alloc: Global, level: Level) -> Result<Item, AllocError>
    ensures { IfOk result (λ item. item ≡ level_item level) }
{
    let lms = level.lms.parameters().code;
    let ots = level.ots.parameters().code;
    let mut items = Items::new(alloc);
    items.push(uint(u64::from(lms)))?;
    items.push(uint(u64::from(ots)))?;
    Ok(array(items))
}

fn levels(alloc: Global, all: &[Level]) -> Result<Item, AllocError>
    ensures { IfOk result (λ item. item ≡ array_item (map level_item all.now)) }
{
    let mut items = Items::new(alloc);
    for one in all {
        items.push(level(alloc, *one)?)?;
    }
    Ok(array(items))
}

fn header_item(alloc: Global, header: &Header) -> Result<Item, AllocError>
    ensures item { IfOk result (λ item. item ≡ record_item (header_record header.now)) }
{
    let name = text(alloc, &header.name)?;
    let governor = holder(alloc, &header.governor)?;
    let key = bytes(alloc, header.key.as_slice())?;
    let levels = levels(alloc, header.levels.as_slice())?;
    let mut items = Items::new(alloc);
    items.push(uint(0))?;
    items.push(uint(1))?;
    items.push(name)?;
    items.push(governor)?;
    items.push(key)?;
    items.push(levels)?;
    items.push(uint(u64::from(header.max_entries)))?;
    items.push(uint(u64::from(header.block)))?;
    Ok(array(items))
}

// A key has 60 bytes.
fn whole_key(key: &Key60)
    ensures { length key.now ≡ 60 }
{
    let _bytes = key.as_slice();
}

/// The strict bytes of a policy that has them.
pub(crate) fn policy_text(alloc: Global, policy: &Policy) -> Result<Bytes, AllocError>
    requires { HasBytes (policy_item policy.now) }
    ensures { IfOk result (λ bytes. bytes ≡ strict_text (policy_item policy.now)) }
{
    strict_items_are_spelled();
    strict_text_is_exact();
    match encode_policy(alloc, policy) {
        Ok(bytes) => Ok(bytes),
        Err(EncodeStop::NotStrict) => unreachable!(),
        Err(EncodeStop::OutOfMemory) => Err(AllocError),
    }
}

/// The bootstrap policy of a governor within the limits.
pub(crate) fn bootstrap(alloc: Global, governor: &Holder) -> Result<Policy, AllocError>
    requires iss { length governor.now.iss ≤ 1024 }
    requires kid { length governor.now.kid ≤ 64 }
    ensures value { IfOk result (λ policy. policy ≡ bootstrap_of governor.now) }
    ensures bytes { IfOk result (λ policy. HasBytes (policy_item policy)) }
{
    shape_laws();
    let _iss = governor.iss.as_str();
    whole_key(&governor.key);
    Policy::bootstrap(alloc, governor)
}

/// The body of a Header record, `[0, 1, name, [iss, kid, key], key, levels, max_entries, block]`, a level being
/// `[LMS code, LM-OTS code]`. The header is within the limits.
pub fn header_body(alloc: Global, header: &Header) -> Result<Bytes, AllocError>
    requires { is_within_limits header.now ≡ true }
    ensures { IfOk result (IsBodyOf (header_record header.now)) }
{
    shape_laws();
    let _name = header.name.as_str();
    let _iss = header.governor.iss.as_str();
    whole_key(&header.governor.key);
    whole_key(&header.key);
    let item = header_item(alloc, header)?;
    strict(alloc, &item)
}
