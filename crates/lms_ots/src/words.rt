// Words and parts of byte strings (RFC 8554, 3.1).

ghost use Rattle.std.specs.Prelude.{◌≡◌, ◌+◌, ◌≤◌, ◌++◌, take, drop, length};
ghost use Rattle.lms_ots.specs.Words.{part, u16str, u32_at, u32str};

/// A SHA-256 digest.
pub type Hash = [u8; 32];

/// Writes `piece` into `buf` from byte `at` on, leaves the other bytes as they are, and gives the
/// place behind it.
pub fn put(buf: &mut [u8], at: usize, piece: &[u8]) -> usize
    requires { at + length piece.now ≤ length buf.old }
    ensures end { result ≡ at + length piece.now }
    ensures written { take result buf.new ≡ take at buf.old ++ piece.now }
    ensures rest { drop result buf.new ≡ drop result buf.old }
{
    let end = at + piece.len();
    buf[at..end].copy_from_slice(piece);
    end
}

#[tactic(auto, unfolding(crate::specs::Words::part))]
/// The 32 bytes of `bytes` from byte `at` on.
pub fn hash_at(bytes: &[u8], at: usize) -> Hash
    requires { at + 32 ≤ length bytes.now }
    ensures { result ≡ part bytes.now at 32 }
{
    let mut out = [0; 32];
    out.copy_from_slice(&bytes[at..at + 32]);
    out
}

#[tactic(auto, unfolding(crate::specs::Words::u32_at))]
/// The number that the four bytes from byte `at` on spell, the high one first (`strTou32`).
pub fn u32_at(bytes: &[u8], at: usize) -> u32
    requires { at + 4 ≤ length bytes.now }
    ensures { result ≡ u32_at bytes.now at }
{
    u32::from_be_bytes([bytes[at], bytes[at + 1], bytes[at + 2], bytes[at + 3]])
}

#[tactic(auto, unfolding(crate::specs::Words::u16str))]
// Two bytes, the high one first.
pub(crate) fn u16str(x: u16) -> [u8; 2]
    ensures { result ≡ u16str x }
{
    x.to_be_bytes()
}

#[tactic(auto, unfolding(crate::specs::Words::u32str))]
/// Four bytes, the high one first.
pub fn u32str(x: u32) -> [u8; 4]
    ensures { result ≡ u32str x }
{
    x.to_be_bytes()
}
