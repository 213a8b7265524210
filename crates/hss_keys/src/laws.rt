// Laws over all signers and signatures.

ghost use Rattle.std.specs.Prelude.{◌≡◌, ℕ, ◌<◌, ◌≤◌, List, length};
ghost use Rattle.lms_tree.specs.declared.types.Level.{Level};
ghost use Rattle.hss_keys.specs.Levels.{IsLevels, capacity};
ghost use Rattle.hss_keys.specs.Keys.{NamesLevels};
ghost use Rattle.hss_keys.specs.Signing.{hss_public, hss_sig};
ghost use Rattle.hss_keys.specs.Signers.{hss_sig_len};
ghost use Rattle.hss_keys.specs.Verifies.{FlatIndex, HssVerifies};
ghost use Rattle.hss_keys.specs.Functions.{IndexExactly, NamesExactly, VerifiesExactly};

use lms_ots::word_law;
use lms_tree::lms_law;

/// The signature of any index under any levels, seed and identifier, on any message, verifies under
/// the key of these, its leaf numbers spell the index, and it has its levels' length. The key has 60
/// bytes and names its levels. The leaf numbers of any signature spell one index at most.
pub fn hss_law()
    ensures verifies { (levels : List Level) (id seed : List ℕ) (index : ℕ) (msg : List ℕ) → IsLevels levels
        → length id ≡ 16 → index < capacity levels
        → HssVerifies (hss_public levels id seed) (hss_sig levels id seed index msg) msg }
    ensures index { (levels : List Level) (id seed : List ℕ) (index : ℕ) (msg : List ℕ) → IsLevels levels
        → length id ≡ 16 → index < capacity levels
        → FlatIndex levels (hss_sig levels id seed index msg) index }
    ensures one_index { (levels : List Level) (sig : List ℕ) (first second : ℕ) → FlatIndex levels sig first
        → FlatIndex levels sig second → first ≡ second }
    ensures sig_len { (levels : List Level) (id seed : List ℕ) (index : ℕ) (msg : List ℕ) → IsLevels levels
        → length id ≡ 16 → index < capacity levels
        → length (hss_sig levels id seed index msg) ≡ hss_sig_len levels }
    ensures public_len { (levels : List Level) (id seed : List ℕ) → IsLevels levels → length id ≡ 16
        → length (hss_public levels id seed) ≡ 60 }
    ensures names { (levels : List Level) (id seed : List ℕ) → IsLevels levels → length id ≡ 16
        → NamesLevels levels (hss_public levels id seed) }
{
    word_law();
    lms_law();
}

/// Whether a signature verifies, which index it spells, and whether a key names levels, asked as functions: they answer
/// exactly what the relations say, for every list of numbers.
pub fn key_laws()
    ensures verifies { VerifiesExactly }
    ensures index { IndexExactly }
    ensures names { NamesExactly }
{
    word_law();
}

/// Levels sign at least one message and at most 2^30, each in at most 26648 bytes.
pub fn levels_law()
    ensures some { (levels : List Level) → 0 < capacity levels }
    ensures capacity { (levels : List Level) → IsLevels levels → capacity levels ≤ 1073741824 }
    ensures sig_len { (levels : List Level) → IsLevels levels → hss_sig_len levels ≤ 26648 }
{}
