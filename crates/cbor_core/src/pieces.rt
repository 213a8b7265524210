// Texts written into a buffer piece by piece, where no item is made for them.

ghost use Rattle.std.specs.Prelude.{◌≡◌, ◌+◌, ◌<◌, ◌≤◌, length};
ghost use Rattle.cbor_core.specs.Head.{head};
ghost use Rattle.cbor_core.specs.Encoding.{size_of, head_size};
ghost use Rattle.cbor_core.specs.Writes.{Writes};

use crate::measuring::size_len;
use crate::node_heads::{head_bytes, short, size_for};

/// How many bytes the shortest head of this argument has (RFC 8949, 3 and 4.2.1).
pub fn head_len(argument: u64) -> usize
    ensures value { result ≡ head_size (size_of argument) }
    ensures small { result < 10 }
{
    size_len(size_for(argument))
}

/// Writes the piece from the place on, and says where it ends.
pub fn put(buf: &mut [u8], at: usize, piece: &[u8]) -> usize
    requires { at + length piece.now ≤ length buf.old }
    ensures { Writes piece.now at buf.old buf.new result }
{
    let end = at + piece.len();
    buf[at..end].copy_from_slice(piece);
    end
}

/// Writes the shortest head of a major type and an argument (RFC 8949, 3 and 4.2.1), and says where it ends.
pub fn put_head(buf: &mut [u8], at: usize, major: u8, argument: u64) -> usize
    requires major { major < 8 }
    requires room { at + head_size (size_of argument) ≤ length buf.old }
    ensures { Writes (head major (size_of argument) argument) at buf.old buf.new result }
{
    let (bytes, len) = head_bytes(short(major, argument));
    put(buf, at, &bytes[..len])
}
