ghost use Rattle.std.specs.Prelude.{◌≡◌, ℕ, ◌+◌, ◌*◌, ◌/◌, ◌<◌, ◌≤◌, length, take, drop, Ok, Err, MatchResult, IfOk, true};
ghost use Rattle.std.specs.Int.{byte_len, from_be_bytes};
ghost use Rattle.cbor_core.specs.Head.{head_at, sized, width, limit, is_own};

use crate::words::Why;
use std::alloc::{AllocError, AllocFailed};

/// How many bytes an argument takes: none of its own, 1, 2, 4 or 8 (RFC 8949, 3).
#[derive(Clone, Copy)]
pub enum Size {
    Within,
    One,
    Two,
    Four,
    Eight,
}

/// A head: its major type, and its argument (RFC 8949, 3).
#[derive(Clone, Copy)]
pub struct Head {
    pub major: u8,
    pub size: Size,
    pub argument: u64,
}

/// A fault by the number of bytes that are left where it stands.
#[derive(Clone, Copy)]
pub struct Stop {
    pub left: usize,
    pub why: Why,
}

/// Why a reader gave nothing.
#[derive(Clone, Copy)]
pub enum ReadStop {
    Memory,
    At(Stop),
}

impl From<AllocError> for ReadStop {
    ghost use Rattle.cbor_core.specs.declared.heads.ReadStop.TheVariants.{Memory};

    ghost from_gives = { λ _ e. e ≡ Memory };

    fn from(_error: AllocError) -> ReadStop {
        ReadStop::Memory
    }
}

impl<T: Drop> From<AllocFailed<T>> for ReadStop {
    ghost use Rattle.cbor_core.specs.declared.heads.ReadStop.TheVariants.{Memory};

    ghost from_gives = { λ _ e. e ≡ Memory };

    fn from(_error: AllocFailed<T>) -> ReadStop {
        ReadStop::Memory
    }
}

impl From<Stop> for ReadStop {
    ghost use Rattle.cbor_core.specs.declared.heads.ReadStop.TheVariants.{At};

    ghost from_gives = { λ stop e. e ≡ At stop };

    fn from(stop: Stop) -> ReadStop {
        ReadStop::At(stop)
    }
}

fn argument_len(size: Size) -> usize
    ensures { result ≡ byte_len (width size) }
{
    match size {
        Size::Within | Size::One => 1,
        Size::Two => 2,
        Size::Four => 4,
        Size::Eight => 8,
    }
}

fn argument_in(size: Size, bytes: &[u8]) -> u64
    requires long { length bytes.now ≡ byte_len (width size) }
    requires own { is_own size ≡ true }
    ensures value { result ≡ from_be_bytes (width size) bytes.now }
    ensures fits { result < limit size }
{
    match size {
        Size::Within | Size::One => u64::from(bytes[0]),
        Size::Two => u64::from(u16::from_be_bytes([bytes[0], bytes[1]])),
        Size::Four => u64::from(u32::from_be_bytes([bytes[0], bytes[1], bytes[2], bytes[3]])),
        Size::Eight => u64::from_be_bytes([
            bytes[0], bytes[1], bytes[2], bytes[3], bytes[4], bytes[5], bytes[6], bytes[7],
        ]),
    }
}

fn sized_head(first: u8, size: Size, rest: &[u8]) -> Result<(Head, &[u8]), Why>
    requires { is_own size ≡ true }
    ensures read { MatchResult result (λ x. sized first size rest.now ≡ Ok (x.0, x.1.now)) (λ why. sized first size rest.now ≡ Err why) }
    ensures fits { IfOk result (λ x. (x.0.major < 8) × (x.0.argument < limit x.0.size)) }
{
    let len = argument_len(size);
    if rest.len() < len {
        return Err(Why::Truncated);
    }
    let (front, rest) = rest.split_at(len);
    let argument = argument_in(size, front);
    if first == 0xf8 && argument < 32 {
        return Err(Why::Reserved);
    }
    let head = Head {
        major: first / 32,
        size,
        argument,
    };
    Ok((head, rest))
}

/// The head at the front of the bytes and what follows it, or the first fault of a head (RFC 8949, 3).
#[tactic(auto, unfolding(crate::specs::Head::head_at))]
pub fn head_of(bytes: &[u8]) -> Result<(Head, &[u8]), Why>
    ensures read { MatchResult result (λ x. head_at bytes.now ≡ Ok (x.0, x.1.now)) (λ why. head_at bytes.now ≡ Err why) }
    ensures fits { IfOk result (λ x. (x.0.major < 8) × (x.0.argument < limit x.0.size)) }
{
    let [first, rest @ ..] = bytes else {
        return Err(Why::Truncated);
    };
    let information = *first % 32;
    if information < 24 {
        let head = Head {
            major: *first / 32,
            size: Size::Within,
            argument: u64::from(information),
        };
        return Ok((head, rest));
    }
    if information == 24 {
        return sized_head(*first, Size::One, rest);
    }
    if information == 25 {
        return sized_head(*first, Size::Two, rest);
    }
    if information == 26 {
        return sized_head(*first, Size::Four, rest);
    }
    if information == 27 {
        return sized_head(*first, Size::Eight, rest);
    }
    if information < 31 {
        return Err(Why::Reserved);
    }
    Err(Why::Indefinite)
}
