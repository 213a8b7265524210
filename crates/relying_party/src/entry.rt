// The bytes of the entry that a receipt speaks of.

ghost use Rattle.std.specs.Prelude.{◌≡◌, ◌+◌, ◌≤◌, ◌<◌, ◌^◌, length, IfOk};
ghost use Rattle.merkle_tree.specs.Mth.{leaf_hash as hash_of_leaf};
ghost use Rattle.relying_party.specs.Entries.{entry_bytes, entry_text, entry_len as len_of_entry};

use cbor_core::{head_len, put, put_head, strict_item_by_kind, zeros};
use merkle_tree::{Hash, leaf_hash};
use std::alloc::{AllocError, Global};

fn entry_len(at: u64, rule: u16, logged: &[u8]) -> usize
    requires short { length logged.now ≤ 4194304 }
    ensures { result ≡ len_of_entry at rule (length logged.now) }
{
    let heads = head_len(at) + head_len(u64::from(rule)) + head_len(logged.len() as u64);
    2 + heads + logged.len()
}

// Writes `[1, at, rule, logged]`.
fn put_entry(at: u64, rule: u16, logged: &[u8], buf: &mut [u8])
    requires short { length logged.now ≤ 4194304 }
    requires room { length buf.old ≡ len_of_entry at rule (length logged.now) }
    ensures { buf.new ≡ entry_text at rule logged.now }
{
    let end = put(buf, 0, &[0x84, 1]);
    let end = put_head(buf, end, 0, at);
    let end = put_head(buf, end, 0, u64::from(rule));
    let end = put_head(buf, end, 2, logged.len() as u64);
    let _end = put(buf, end, logged);
}

fn hash_of(at: u64, rule: u16, logged: &[u8], buf: &mut [u8]) -> Hash
    requires short { length logged.now ≤ 4194304 }
    requires room { length buf.old ≡ len_of_entry at rule (length logged.now) }
    ensures { result ≡ hash_of_leaf (entry_bytes at rule logged.now) }
{
    strict_item_by_kind();
    put_entry(at, rule, logged, buf);
    leaf_hash(buf)
}

/// The leaf hash of the entry `[1, at, rule, logged]`, whose bytes are made for it. The logged form has at most 4,194,304 bytes.
pub(crate) fn entry_hash(
    alloc: Global,
    at: u64,
    rule: u16,
    logged: &[u8],
) -> Result<Hash, AllocError>
    requires short { length logged.now ≤ 4194304 }
    ensures { IfOk result (λ hash. hash ≡ hash_of_leaf (entry_bytes at rule logged.now)) }
{
    let mut bytes = zeros(alloc, entry_len(at, rule, logged))?;
    Ok(hash_of(at, rule, logged, &mut bytes))
}
