ghost use Rattle.std.specs.Prelude.{◌≡◌, ℕ, ◌≤◌, length};
ghost use Rattle.cbor_core.specs.Limits.{longest_string};
ghost use Rattle.cose_sign1.specs.Tbs.{no_map, signed_of as signed_string, tbs_front, tbs_len, tbs_text, Tbs, HasTbsLength};

use crate::strings::{put_string, string_head_len};
use cbor_core::put;

// the head of an array of four, and the text "Signature1"
const FRONT: [u8; 12] = [
    0x84, 0x6a, 0x53, 0x69, 0x67, 0x6e, 0x61, 0x74, 0x75, 0x72, 0x65, 0x31,
];

fn is_no_map(string: &[u8]) -> bool
    ensures { result ≡ no_map string.now }
{
    string == [].as_slice()
        || string == [0xa0].as_slice()
        || string == [0xb8, 0].as_slice()
        || string == [0xb9, 0, 0].as_slice()
        || string == [0xba, 0, 0, 0, 0].as_slice()
        || string == [0xbb, 0, 0, 0, 0, 0, 0, 0, 0].as_slice()
}

#[tactic(auto, unfolding(crate::specs::Tbs::signed_of))]
fn signed_of(protected: &[u8]) -> &[u8]
    ensures { result.now ≡ signed_string protected.now }
{
    if is_no_map(protected) {
        return &protected[..0];
    }
    protected
}

/// How many bytes the Sig_structure of a protected string and a payload has (RFC 9052, 4.4). It takes no memory.
pub fn to_be_signed_len(protected: &[u8], payload: &[u8]) -> usize
    requires protected_fits { length protected.now ≤ longest_string }
    requires payload_fits { length payload.now ≤ longest_string }
    ensures value { result ≡ tbs_len protected.now payload.now }
    ensures exact { HasTbsLength protected.now payload.now result }
{
    let signed = signed_of(protected).len();
    13 + string_head_len(signed) + signed + string_head_len(payload.len()) + payload.len()
}

fn write_structure(signed: &[u8], payload: &[u8], buf: &mut [u8])
    requires signed_fits { length signed.now ≤ longest_string }
    requires payload_fits { length payload.now ≤ longest_string }
    requires room { length buf.old ≡ length (tbs_text signed.now payload.now) }
    ensures { buf.new ≡ tbs_text signed.now payload.now }
{
    let at = put(buf, 0, &FRONT);
    let at = put_string(buf, at, signed);
    let at = put(buf, at, &[0x40]);
    let _end = put_string(buf, at, payload);
}

/// Writes the Sig_structure of a protected string and a payload (RFC 9052, 4.4): in strict, `["Signature1", protected, h'',
/// payload]`. A protected string without entries, be it of no bytes or an empty map in whatever width, is signed as `h''`.
/// The buffer's length is `to_be_signed_len`. It takes no memory.
pub fn to_be_signed_into(protected: &[u8], payload: &[u8], buf: &mut [u8])
    requires protected_fits { length protected.now ≤ longest_string }
    requires payload_fits { length payload.now ≤ longest_string }
    requires room { length buf.old ≡ tbs_len protected.now payload.now }
    ensures { Tbs protected.now payload.now buf.new }
{
    write_structure(signed_of(protected), payload, buf);
}
