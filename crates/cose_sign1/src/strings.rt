// A byte string, written as strict bytes.

ghost use Rattle.std.specs.Prelude.{◌≡◌, ◌+◌, ◌^◌, ◌<◌, ◌≤◌, length};
ghost use Rattle.cbor_core.specs.Writes.{Writes};
ghost use Rattle.cose_sign1.specs.Strings.{head_len as len_of_head, string_head, string_len, string_text};

use cbor_core::{head_len, put, put_head};

/// How many bytes the head of a string of so many bytes has (RFC 8949, 3 and 4.2.1).
#[tactic(auto, unfolding(crate::specs::Strings::head_len))]
pub fn string_head_len(n: usize) -> usize
    ensures value { result ≡ len_of_head n }
    ensures small { result < 10 }
{
    head_len(n as u64)
}

#[tactic(auto, unfolding(crate::specs::Strings::head_len, crate::specs::Strings::string_head))]
fn put_string_head(buf: &mut [u8], at: usize, n: usize) -> usize
    requires room { at + len_of_head n ≤ length buf.old }
    ensures { Writes (string_head n) at buf.old buf.new result }
{
    put_head(buf, at, 2, n as u64)
}

/// Writes a byte string: its head and its bytes.
pub fn put_string(buf: &mut [u8], at: usize, bytes: &[u8]) -> usize
    requires { at + string_len (length bytes.now) ≤ length buf.old }
    ensures { Writes (string_text bytes.now) at buf.old buf.new result }
{
    let at = put_string_head(buf, at, bytes.len());
    put(buf, at, bytes)
}
