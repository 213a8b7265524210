// The digits of a hashed message and its checksum (RFC 8554, 3.1.3 and 4.4).

ghost use Rattle.std.specs.Prelude.{◌≡◌, ◌+◌, ◌-◌, ◌*◌, ◌/◌, ◌^◌, ◌<◌, ◌≤◌, ◌++◌, length};
ghost use Rattle.lms_ots.specs.Words.{u16str};
ghost use Rattle.lms_ots.specs.Digits.{checksum, coef, shortfall};

use crate::parameters::OtsType;
use crate::words::{Hash, put, u16str};

// Digit `i` of `bytes` in `width` bits, the most significant first.
#[tactic(auto, unfolding(crate::specs::Digits::coef))]
pub(crate) fn coef(bytes: &[u8], i: usize, width: usize) -> u8
    requires some { 0 < width }
    requires byte { width ≤ 8 }
    requires small { i < 265 }
    requires within { i * width / 8 < length bytes.now }
    ensures value { result ≡ coef bytes.now i width }
    ensures below { result < 2 ^ width }
{
    let shift = 8 - (width * (i % (8 / width)) + width);
    ((u16::from(bytes[i * width / 8]) >> shift) % (1 << width)) as u8
}

// The greatest digit of `width` bits.
pub(crate) fn top(width: usize) -> u8
    requires { width ≤ 8 }
    ensures { result ≡ 2 ^ width - 1 }
{
    ((1u16 << width) - 1) as u8
}

// How far the first `count` digits are below the greatest one, in all.
fn shortfall(bytes: &Hash, width: usize, count: usize) -> u32
    requires some { 0 < width }
    requires byte { width ≤ 8 }
    requires within { count * width ≤ 256 }
    ensures value { result ≡ shortfall bytes.now width count }
    ensures bound { result ≤ (2 ^ width - 1) * count }
{
    let top = top(width);
    let mut sum = 0;
    for i in 0..count {
        sum += u32::from(top - coef(bytes, i, width));
    }
    sum
}

// The hash with its checksum, whose digits say how many steps each chain has in a signature.
pub(crate) fn with_checksum(kind: OtsType, hash: &Hash) -> [u8; 34]
    ensures { result ≡ hash.now ++ u16str (checksum kind hash.now) }
{
    let row = kind.parameters();
    let sum = shortfall(hash, row.width, 256 / row.width);
    let mut out = [0; 34];
    let end = put(&mut out, 0, hash);
    put(&mut out, end, &u16str((sum << row.shift) as u16));
    out
}
