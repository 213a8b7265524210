// The word that names a key's levels.

ghost use Rattle.std.specs.Prelude.{◌≡◌, ◌∷◌, [], ◌+◌, ◌<◌, length, position, IfSome, All, Option, Some, None};
ghost use Rattle.level_names.specs.LevelNames.{level_named as level_of_name, levels_named as levels_of_name, is_comma};
ghost use Rattle.hss_keys.specs.Levels.{CanSign};

use hss_keys::{Level, Levels, LmsType, OtsType};

fn level(lms: LmsType, ots: OtsType) -> Option<Level>
    ensures { result ≡ Some (record { lms = lms; ots = ots }) }
{
    Some(Level { lms, ots })
}

// The level of this name.
fn level_named(text: &[u8]) -> Option<Level>
    ensures value { result ≡ level_of_name text.now }
    ensures can_sign { IfSome result CanSign }
{
    if text == b"h5w1".as_slice() {
        level(LmsType::H5, OtsType::W1)
    } else if text == b"h5w2".as_slice() {
        level(LmsType::H5, OtsType::W2)
    } else if text == b"h5w4".as_slice() {
        level(LmsType::H5, OtsType::W4)
    } else if text == b"h5w8".as_slice() {
        level(LmsType::H5, OtsType::W8)
    } else if text == b"h10w1".as_slice() {
        level(LmsType::H10, OtsType::W1)
    } else if text == b"h10w2".as_slice() {
        level(LmsType::H10, OtsType::W2)
    } else if text == b"h10w4".as_slice() {
        level(LmsType::H10, OtsType::W4)
    } else if text == b"h10w8".as_slice() {
        level(LmsType::H10, OtsType::W8)
    } else {
        None
    }
}

fn comma(text: &[u8]) -> Option<usize>
    ensures value { result ≡ position is_comma text.now }
    ensures within { IfSome result (λ i. i < length text.now) }
{
    text.iter().position(|b| *b == b',')
}

/// The levels of this name: one to three names of levels, joined by commas.
pub fn levels_named(text: &str) -> Option<Levels>
    ensures { result ≡ levels_of_name text.now }
{
    let text = text.as_bytes();
    let Some(end) = comma(text) else {
        return Levels::of(&[level_named(text)?]);
    };
    let first = level_named(&text[..end])?;
    let text = &text[end + 1..];
    let Some(end) = comma(text) else {
        return Levels::of(&[first, level_named(text)?]);
    };
    let second = level_named(&text[..end])?;
    let third = level_named(&text[end + 1..])?;
    Levels::of(&[first, second, third])
}
