// The leaf hash of an entry, taken without the entry's bytes.

ghost use Rattle.std.specs.Prelude.{◌≡◌, ◌+◌, ◌<◌, ◌≤◌, ◌^◌, length};
ghost use Rattle.cbor_core.specs.Exact.{strict_text};
ghost use Rattle.cbor_core.specs.Writes.{Writes};
ghost use Rattle.merkle_tree.specs.Mth.{leaf_hash};
ghost use Rattle.log_replay.specs.Records.{entry_item};
ghost use Rattle.log_replay.specs.Spelling.{entry_front};

use cbor_core::{put, put_head, strict_item_by_kind};
use merkle_tree::leaf_hash_of_pieces;
use statement::Hash;

// Two bytes, and three heads of nine at most.
const LONGEST: usize = 29;

// What stands before the logged form, which has `len` bytes.
fn put_front(buf: &mut [u8], at: u64, rule: u64, len: u64) -> usize
    requires { 29 ≤ length buf.old }
    ensures front { Writes (entry_front at rule len) 0 buf.old buf.new result }
    ensures most { result ≤ 29 }
{
    let end = put(buf, 0, &[0x84, 1]);
    let end = put_head(buf, end, 0, at);
    let end = put_head(buf, end, 0, rule);
    put_head(buf, end, 2, len)
}

/// The hash of the leaf that is the entry `[1, at, rule, logged]`. It takes no memory.
pub(crate) fn entry_hash(at: u64, rule: u16, logged: &[u8]) -> Hash
    requires { length logged.now ≤ 4194304 }
    ensures { result ≡ leaf_hash (strict_text (entry_item at rule logged.now)) }
{
    strict_item_by_kind();
    let mut front = [0; LONGEST];
    let len = put_front(&mut front, at, u64::from(rule), logged.len() as u64);
    leaf_hash_of_pieces(&front[..len], logged)
}
