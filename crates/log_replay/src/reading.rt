// Records and entries, as bytes spell them.

ghost use Rattle.std.specs.Prelude.{◌≡◌, ◌==◌, ℕ, List, [], Some, None, length, if◌then◌else◌, ◌≢◌, IfOk, IfSome, IfNone, option_map, option_and_then};
ghost use Rattle.cbor_core.specs.Items.{array_in};
ghost use Rattle.policy_rules.specs.Conditions.{each_onto};
ghost use Rattle.log_replay.specs.Records.{any_holder_in, holder_from, holder_of_parts, level_by, level_from, level_in, levels_in, entries_array, header_from as header_by, batch_from, record_in, record_of_parts, one_entry as one_entry_of, batch_in, record_of, entry_in, parts_of, entry_of, entry_of_parts, parts_from};
ghost use Rattle.cbor_core.specs.Items.{bytes_in, text_in, uint_in};
ghost use Rattle.log_replay.specs.Seen.{record_seen, entry_seen, wants_memory};
ghost use Rattle.statement.specs.Said.{said_of, logged_statement};

use crate::holders::{any_levels_of, bytes_copied, holder_of, key_of, text_copied};
use crate::parts::{BatchParts, Entry, EntryParts, Heading, Record};
use cbor_core::{Item, array_of, is_uint, strict_of, uint_of};
use statement::{
    Blobs, ParseStop, Statement, logged_form_is_the_statement, parse, statements_have_one_answer,
};
use std::alloc::{AllocError, Global};

fn each_blob(alloc: Global, items: &[Item]) -> Result<Option<Blobs>, AllocError>
    ensures { IfOk result (λ blobs. blobs ≡ each_onto bytes_in [] items.now) }
{
    let mut blobs = Blobs::new(alloc);
    for item in items {
        match bytes_copied(alloc, item)? {
            Some(bytes) => blobs.push(bytes)?,
            None => return Ok(None),
        }
    }
    Ok(Some(blobs))
}

fn blobs_of(alloc: Global, item: &Item) -> Result<Option<Blobs>, AllocError>
    ensures { IfOk result (λ blobs. blobs ≡ entries_array item.now) }
{
    match array_of(item) {
        Some(items) => each_blob(alloc, items),
        None => Ok(None),
    }
}

fn heading_of(
    alloc: Global,
    name: &Item,
    governor: &Item,
    key: &Item,
    levels: &Item,
    max_entries: &Item,
    block: &Item,
) -> Result<Option<Record>, AllocError>
    ensures { IfOk result (λ r. option_map record_seen r
        ≡ header_by (text_in name.now) (any_holder_in governor.now) (bytes_in key.now) (levels_in levels.now) (uint_in max_entries.now) (uint_in block.now)) }
{
    let Some(name) = text_copied(alloc, name)? else {
        return Ok(None);
    };
    let Some(governor) = holder_of(alloc, governor)? else {
        return Ok(None);
    };
    let Some(key) = key_of(key) else {
        return Ok(None);
    };
    let Some(levels) = any_levels_of(alloc, levels)? else {
        return Ok(None);
    };
    let Some(max_entries) = uint_of(max_entries) else {
        return Ok(None);
    };
    let Some(block) = uint_of(block) else {
        return Ok(None);
    };
    Ok(Some(Record::Head(Heading {
        name,
        governor,
        key,
        levels,
        max_entries,
        block,
    })))
}

fn batch_of(
    alloc: Global,
    entries: &Item,
    index: &Item,
    signature: &Item,
) -> Result<Option<BatchParts>, AllocError>
    ensures { IfOk result (λ batch. batch ≡ batch_from (entries_array entries.now) (uint_in index.now) (bytes_in signature.now)) }
{
    let Some(entries) = blobs_of(alloc, entries)? else {
        return Ok(None);
    };
    let Some(index) = uint_of(index) else {
        return Ok(None);
    };
    match bytes_copied(alloc, signature)? {
        Some(signature) => Ok(Some(BatchParts {
            entries,
            index,
            signature,
        })),
        None => Ok(None),
    }
}

fn record_with(alloc: Global, items: &[Item]) -> Result<Option<Record>, AllocError>
    ensures { IfOk result (λ r. option_map record_seen r ≡ record_of_parts items.now) }
{
    match items {
        [kind, upto] if is_uint(1, kind) => Ok(uint_of(upto).map(Record::Reserve)),
        [kind, entries, index, signature] if is_uint(2, kind) => {
            Ok(batch_of(alloc, entries, index, signature)?.map(Record::Entries))
        }
        [kind, form, name, governor, key, levels, max_entries, block]
            if is_uint(0, kind) && is_uint(1, form) => {
            heading_of(alloc, name, governor, key, levels, max_entries, block)
        }
        _ => Ok(None),
    }
}

fn record_in_item(alloc: Global, item: &Item) -> Result<Option<Record>, AllocError>
    ensures { IfOk result (λ r. option_map record_seen r ≡ record_in item.now) }
{
    match array_of(item) {
        Some(items) => record_with(alloc, items),
        None => Ok(None),
    }
}

/// The record that a body spells, where it spells one.
#[tactic(auto, unfolding(crate::specs::Records::record_of))]
pub(crate) fn record_of(alloc: Global, body: &[u8]) -> Result<Option<Record>, AllocError>
    ensures { IfOk result (λ r. option_map record_seen r ≡ record_of body.now) }
{
    if body.len() > 16_777_216 {
        return Ok(None);
    }
    match strict_of(alloc, body)? {
        Some(item) => record_in_item(alloc, &item),
        None => Ok(None),
    }
}

fn one_entry(batch: BatchParts) -> Option<BatchParts>
    ensures { result ≡ one_entry_of batch }
{
    if batch.entries.len() == 1 {
        Some(batch)
    } else {
        None
    }
}

fn batch_alone(read: Option<Record>) -> Option<BatchParts>
    ensures { result ≡ batch_in (option_map record_seen read) }
{
    match read {
        Some(Record::Entries(batch)) => one_entry(batch),
        _ => None,
    }
}

/// What a Batch record holds; `None` where the body isn't one. A Batch has one entry.
pub fn read_batch(alloc: Global, body: &[u8]) -> Result<Option<BatchParts>, AllocError>
    ensures { IfOk result (λ batch. batch ≡ batch_in (record_of body.now)) }
{
    let record = record_of(alloc, body)?;
    Ok(batch_alone(record))
}

fn parts_with(alloc: Global, items: &[Item]) -> Result<Option<EntryParts>, AllocError>
    ensures { IfOk result (λ parts. parts ≡ entry_of_parts items.now) }
{
    let [one, at, rule, logged] = items else {
        return Ok(None);
    };
    if !is_uint(1, one) {
        return Ok(None);
    }
    let (Some(at), Some(rule)) = (uint_of(at), uint_of(rule)) else {
        return Ok(None);
    };
    if rule > 65535 {
        return Ok(None);
    }
    match bytes_copied(alloc, logged)? {
        Some(logged) => Ok(Some(EntryParts {
            at,
            rule: rule as u16,
            logged,
        })),
        None => Ok(None),
    }
}

fn parts_in_item(alloc: Global, item: &Item) -> Result<Option<EntryParts>, AllocError>
    ensures { IfOk result (λ parts. parts ≡ entry_in item.now) }
{
    match array_of(item) {
        Some(items) => parts_with(alloc, items),
        None => Ok(None),
    }
}

/// What an entry's bytes hold: those of a strict `[1, at, rule, bytes]` with a rule of at most 65,535, and `None` of others.
#[tactic(auto, unfolding(crate::specs::Records::parts_of))]
pub fn entry_parts(alloc: Global, entry: &[u8]) -> Result<Option<EntryParts>, AllocError>
    ensures { IfOk result (λ parts. parts ≡ parts_of entry.now) }
{
    match strict_of(alloc, entry)? {
        Some(item) => parts_in_item(alloc, &item),
        None => Ok(None),
    }
}

fn is_wanting(stop: &ParseStop) -> bool
    ensures { result ≡ wants_memory stop.now }
{
    matches!(stop, ParseStop::OutOfMemory)
}

// The statement that these bytes are the logged form of.
fn logged_of(alloc: Global, logged: &[u8]) -> Result<Option<Statement>, AllocError>
    ensures { IfOk result (λ s. option_map said_of s ≡ logged_statement logged.now) }
{
    logged_form_is_the_statement();
    statements_have_one_answer();
    match parse(alloc, logged) {
        Ok(statement) => Ok(when_logged(statement, logged)),
        Err(stop) => {
            if is_wanting(&stop) {
                return Err(AllocError);
            }
            Ok(None)
        }
    }
}

// The statement, where these bytes are its logged form.
fn when_logged(statement: Statement, logged: &[u8]) -> Option<Statement>
    ensures some { IfSome result (λ s. (s ≡ statement) × (s.logged ≡ logged.now)) }
    ensures none { IfNone result (statement.logged ≢ logged.now) }
{
    if statement.logged.as_slice() == logged {
        Some(statement)
    } else {
        None
    }
}

/// The entry that these bytes are, its statement being equal to its logged form.
#[tactic(auto, unfolding(crate::specs::Records::entry_of))]
pub(crate) fn read_entry(alloc: Global, leaf: &[u8]) -> Result<Option<Entry>, AllocError>
    ensures { IfOk result (λ e. option_map entry_seen e ≡ entry_of leaf.now) }
{
    let Some(parts) = entry_parts(alloc, leaf)? else {
        return Ok(None);
    };
    match logged_of(alloc, parts.logged.as_slice())? {
        Some(statement) => Ok(Some(Entry {
            at: parts.at,
            rule: parts.rule,
            statement,
        })),
        None => Ok(None),
    }
}
