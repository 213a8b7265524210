// Types by their codes, and what follows from a level's types.

ghost use Rattle.std.specs.Prelude.{◌≡◌, ◌≢◌, ◌≤◌, ◌+◌, ◌^◌, ◌<◌, ℕ, length, IfSome, IfNone};
ghost use Rattle.lms_ots.specs.Words.{part};
ghost use Rattle.lms_tree.specs.Types.{height, leaf_count, level_at, lms_parameters, lms_type_of_code, sig_len};
ghost use Rattle.lms_tree.specs.declared.types.LmsType.{LmsType};

use crate::types::{Level, LmsType};
use lms_ots::{ots_sig_len, ots_type, u32_at};

/// The type with the code `code`; `None` exactly for a code that the table doesn't have
/// (RFC 8554, 5.1).
pub fn lms_type(code: u32) -> Option<LmsType>
    ensures value { result ≡ lms_type_of_code code }
    ensures known { IfSome result (λ kind. (lms_parameters kind).code ≡ code) }
    ensures unknown { IfNone result ((kind : LmsType) → (lms_parameters kind).code ≢ code) }
{
    match code {
        5 => Some(LmsType::H5),
        6 => Some(LmsType::H10),
        7 => Some(LmsType::H15),
        8 => Some(LmsType::H20),
        9 => Some(LmsType::H25),
        _ => None,
    }
}

/// h, the height of a level's trees.
pub fn height(level: Level) -> usize
    ensures value { result ≡ height level }
    ensures bound { result ≤ 25 }
{
    level.lms.parameters().height as usize
}

/// 2^h, the number of leaves of a level's trees.
pub fn leaf_count(level: Level) -> u32
    ensures value { result ≡ leaf_count level }
    ensures bound { result ≤ 2 ^ 25 }
{
    1 << level.lms.parameters().height
}

/// The bytes of an LMS signature of this level (RFC 8554, 5.4).
pub fn lms_sig_len(level: Level) -> usize
    ensures value { result ≡ sig_len level }
    ensures bound { result ≤ 9324 }
{
    8 + ots_sig_len(level.ots) + 32 * height(level)
}

/// The level whose LMS and LM-OTS codes stand in `bytes` from byte `at` on, where both are known.
pub fn level_at(bytes: &[u8], at: usize) -> Option<Level>
    requires { at + 8 ≤ length bytes.now }
    ensures { result ≡ level_at bytes.now at }
{
    let lms = lms_type(u32_at(bytes, at))?;
    let ots = ots_type(u32_at(bytes, at + 4))?;
    Some(Level { lms, ots })
}

// The identifier that stands in `bytes` from byte `at` on.
#[tactic(auto, unfolding(lms_ots::specs::Words::part))]
pub(crate) fn id_at(bytes: &[u8], at: usize) -> [u8; 16]
    requires { at + 16 ≤ length bytes.now }
    ensures { result ≡ part bytes.now at 16 }
{
    let mut id = [0; 16];
    id.copy_from_slice(&bytes[at..at + 16]);
    id
}
