ghost use Rattle.std.specs.Prelude.{◌≡◌, ℕ, ◌<◌, ◌≤◌, Ok, Err, MatchResult, slice_index};
ghost use Rattle.cbor_core.specs.Head.{head_at, sized};
ghost use Rattle.cbor_core.specs.declared.heads.Size.TheVariants.{One, Two, Four, Eight};
ghost use Rattle.cbor_feed.specs.Heads.{argument_at};

use cbor_core::Why;

/// The argument of a head, and the least one that has no shorter head (RFC 8949, 4.2.1).
#[derive(Clone, Copy)]
pub struct Argument {
    pub value: u64,
    pub least: u64,
}

fn one_byte(rest: &[u8]) -> Result<(Argument, &[u8]), Why>
    ensures { (first : ℕ) → first < 224 → MatchResult result (λ x. argument_at (sized first One rest.now) ≡ Ok (x.0, x.1.now)) (λ why. argument_at (sized first One rest.now) ≡ Err why) }
{
    if rest.len() < 1 {
        return Err(Why::Truncated);
    }
    let (bytes, rest) = rest.split_at(1);
    let argument = Argument {
        value: u64::from(bytes[0]),
        least: 24,
    };
    Ok((argument, rest))
}

fn two_bytes(rest: &[u8]) -> Result<(Argument, &[u8]), Why>
    ensures { (first : ℕ) → first < 224 → MatchResult result (λ x. argument_at (sized first Two rest.now) ≡ Ok (x.0, x.1.now)) (λ why. argument_at (sized first Two rest.now) ≡ Err why) }
{
    if rest.len() < 2 {
        return Err(Why::Truncated);
    }
    let (bytes, rest) = rest.split_at(2);
    let argument = Argument {
        value: u64::from(u16::from_be_bytes([bytes[0], bytes[1]])),
        least: 0x100,
    };
    Ok((argument, rest))
}

fn four_bytes(rest: &[u8]) -> Result<(Argument, &[u8]), Why>
    ensures { (first : ℕ) → first < 224 → MatchResult result (λ x. argument_at (sized first Four rest.now) ≡ Ok (x.0, x.1.now)) (λ why. argument_at (sized first Four rest.now) ≡ Err why) }
{
    if rest.len() < 4 {
        return Err(Why::Truncated);
    }
    let (bytes, rest) = rest.split_at(4);
    let value = u64::from(u32::from_be_bytes([bytes[0], bytes[1], bytes[2], bytes[3]]));
    let argument = Argument {
        value,
        least: 0x1_0000,
    };
    Ok((argument, rest))
}

fn eight_bytes(rest: &[u8]) -> Result<(Argument, &[u8]), Why>
    ensures { (first : ℕ) → first < 224 → MatchResult result (λ x. argument_at (sized first Eight rest.now) ≡ Ok (x.0, x.1.now)) (λ why. argument_at (sized first Eight rest.now) ≡ Err why) }
{
    if rest.len() < 8 {
        return Err(Why::Truncated);
    }
    let (bytes, rest) = rest.split_at(8);
    let value = u64::from_be_bytes([
        bytes[0], bytes[1], bytes[2], bytes[3], bytes[4], bytes[5], bytes[6], bytes[7],
    ]);
    let argument = Argument {
        value,
        least: 0x1_0000_0000,
    };
    Ok((argument, rest))
}

/// The argument of the head at the front of the bytes and what follows it, or the first fault of a head (RFC 8949, 3).
#[tactic(auto, unfolding(cbor_core::specs::Head::head_at))]
pub fn argument_of(bytes: &[u8]) -> Result<(Argument, &[u8]), Why>
    requires { slice_index bytes.now 0 < 224 }
    ensures { MatchResult result (λ x. argument_at (head_at bytes.now) ≡ Ok (x.0, x.1.now)) (λ why. argument_at (head_at bytes.now) ≡ Err why) }
{
    let [first, rest @ ..] = bytes else {
        return Err(Why::Truncated);
    };
    let information = *first % 32;
    if information < 24 {
        let argument = Argument {
            value: u64::from(information),
            least: 0,
        };
        return Ok((argument, rest));
    }
    if information == 24 {
        return one_byte(rest);
    }
    if information == 25 {
        return two_bytes(rest);
    }
    if information == 26 {
        return four_bytes(rest);
    }
    if information == 27 {
        return eight_bytes(rest);
    }
    if information < 31 {
        return Err(Why::Reserved);
    }
    Err(Why::Indefinite)
}
