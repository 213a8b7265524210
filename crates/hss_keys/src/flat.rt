// The index that a signature's leaf numbers spell.

ghost use Rattle.std.specs.Prelude.{◌≡◌, ℕ, ◌↔◌, ◌+◌, ◌<◌, ◌≤◌, [], ◌∷◌, length, IsTrue, IfSome, IfNone};
ghost use Rattle.std.specs.List.{sum_by};
ghost use Rattle.lms_tree.specs.Types.{height, level_at};
ghost use Rattle.hss_keys.specs.Levels.{capacity};
ghost use Rattle.hss_keys.specs.Verifies.{FlatIndex, IndexBelow, IsAbove};

use crate::levels::{Levels, capacity};
use lms_ots::{u32_at, word_law};
use lms_tree::{Level, has_types, level_at, lms_sig_len};

/// The one index that the leaf numbers of `sig` spell under these levels; `None` where and only where `sig`
/// isn't laid out for them: another length or count of levels, a type code in a signature or a next key
/// that differs from its level's, or a leaf number that the tree of its level doesn't have.
pub fn flat_index(levels: &Levels, sig: &[u8]) -> Option<u64>
    ensures some { IfSome result (λ index. FlatIndex levels.now sig.now index) }
    ensures only { IfSome result (λ index. (other : ℕ) → FlatIndex levels.now sig.now other → other ≡ index) }
    ensures none { IfNone result ((index : ℕ) → FlatIndex levels.now sig.now index → ⊥) }
{
    let levels = levels.as_slice();
    let below = &levels[1..];
    if sig.len() < 4 || u32_at(sig, 0) as usize != below.len() {
        return None;
    }
    index_below(levels[0], below, &sig[4..])
}

// The index that the leaf numbers of a level's signature and of those below it spell.
fn index_below(level: Level, below: &[Level], sig: &[u8]) -> Option<u64>
    requires { sum_by height (level ∷ below.now) ≤ 30 }
    ensures some { IfSome result (λ index. IndexBelow level below.now sig.now index) }
    ensures bound { IfSome result (λ index. index < capacity (level ∷ below.now)) }
    ensures none { IfNone result ((index : ℕ) → IndexBelow level below.now sig.now index → ⊥) }
{
    if below.is_empty() {
        return last_index(level, sig);
    }
    if !is_above(level, below[0], sig) {
        return None;
    }
    word_law();
    let rest = &sig[lms_sig_len(level) + 56..];
    let low = index_below(below[0], &below[1..], rest)?;
    Some(u64::from(u32_at(sig, 0)) * capacity(below) + low)
}

// A level's signature and the next key behind it have the lengths and the type codes of these levels.
#[tactic(auto, unfolding(lms_ots::specs::Words::part))]
fn is_above(level: Level, next: Level, sig: &[u8]) -> bool
    ensures { IsTrue result ↔ IsAbove level next sig.now }
{
    let len = lms_sig_len(level);
    if sig.len() < len + 56 {
        return false;
    }
    has_types(level, &sig[..len]) && is_level_at(sig, len, next)
}

// The leaf number of a signature of this level.
fn last_index(level: Level, sig: &[u8]) -> Option<u64>
    ensures some { IfSome result (λ index. IndexBelow level [] sig.now index) }
    ensures bound { IfSome result (λ index. index < capacity (level ∷ [])) }
    ensures none { IfNone result ((index : ℕ) → IndexBelow level [] sig.now index → ⊥) }
{
    if has_types(level, sig) {
        Some(u64::from(u32_at(sig, 0)))
    } else {
        None
    }
}

// The codes of this level stand in `bytes` from byte `at` on.
pub(crate) fn is_level_at(bytes: &[u8], at: usize, level: Level) -> bool
    requires { at + 8 ≤ length bytes.now }
    ensures { IsTrue result ↔ (level_at bytes.now at ≡ Some level) }
{
    match level_at(bytes, at) {
        Some(found) => found == level,
        None => false,
    }
}
