ghost use Rattle.std.specs.Prelude.{◌≡◌, ℕ, ◌+◌, ◌≤◌, List, length};
ghost use Rattle.cbor_core.specs.Exact.{strict_text};
ghost use Rattle.cbor_core.specs.Writes.{Writes};
ghost use Rattle.cose_sign1.specs.Tbs.{Tbs};
ghost use Rattle.receipts.specs.Written.{protected_item};
ghost use Rattle.receipts.specs.Fits.{NameFits};
ghost use Rattle.receipts.specs.Signed.{signed_text, signed_len, protected_text, protected_len};

use crate::within::name_is_within;
use cbor_core::{Text, head_len, put, put_head, strict_item_by_kind};
use cose_sign1::{sig_structure_is_one, to_be_signed_into};
use merkle_tree::Hash;

// At least the bytes of a protected string: 51 fixed ones, a name of 128, and two heads of nine at most.
const LONGEST: usize = 200;

// Writes the protected string, and gives its length.
fn put_protected(name: &Text, kid: &Hash, size: u32, buf: &mut [u8]) -> usize
    requires most { length name.now ≤ 128 }
    requires kid { length kid.now ≡ 32 }
    requires room { 200 ≤ length buf.old }
    ensures { Writes (protected_text name.now kid.now size) 0 buf.old buf.new result }
{
    let at = put(buf, 0, &[0xa5, 1, 0x38, 0x2d, 4, 0x58, 0x20]);
    let at = put(buf, at, kid.as_slice());
    let at = put(buf, at, &[0x0f, 0xa1, 1]);
    let at = put_head(buf, at, 3, name.len() as u64);
    let at = put(buf, at, name.as_slice());
    let at = put(buf, at, &[0x19, 1, 0x8b, 1, 0x3a, 0, 1, 0x11, 0x70]);
    put_head(buf, at, 0, u64::from(size))
}

/// How many bytes the text has that a service of this name signs over a root of so many entries. The name has 1 to 128 bytes. It takes
/// no memory.
pub fn tbs_len(name: &Text, size: u32) -> usize
    requires some { 1 ≤ length name.now }
    requires most { length name.now ≤ 128 }
    ensures value { result ≡ signed_len (length name.now) size }
    ensures exact { (kid root : List ℕ) → NameFits name.now kid size → length root ≡ 32 → length (signed_text name.now kid size root) ≡ result }
{
    strict_item_by_kind();
    sig_structure_is_one();
    100 + head_len(name.len() as u64) + name.len() + head_len(u64::from(size))
}

/// Writes the text that a service signs over a root: the Sig_structure (RFC 9052, 4.4) whose protected string names the algorithm, the
/// key by its digest, the service, the structure and the size, and whose payload is the root. The name has 1 to 128 bytes, and the buffer
/// `tbs_len`. It takes no memory.
pub fn tbs_into(name: &Text, kid: &Hash, size: u32, root: &Hash, buf: &mut [u8])
    requires some { 1 ≤ length name.now }
    requires most { length name.now ≤ 128 }
    requires room { length buf.old ≡ signed_len (length name.now) size }
    ensures text { buf.new ≡ signed_text name.now kid.now size root.now }
    ensures tbs { Tbs (strict_text (protected_item name.now kid.now size)) root.now buf.new }
{
    name_is_within(name, kid, size);
    strict_item_by_kind();
    sig_structure_is_one();
    let mut protected = [0; LONGEST];
    let len = put_protected(name, kid, size, &mut protected);
    to_be_signed_into(&protected[..len], root.as_slice(), buf);
}
