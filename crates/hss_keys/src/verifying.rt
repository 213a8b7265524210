// Reading HSS keys and verifying HSS signatures (RFC 8554, 6.1 and 6.3).

ghost use Rattle.std.specs.Prelude.{◌≡◌, ◌↔◌, ◌+◌, ◌≤◌, IsTrue, IsSome, IfSome, length};
ghost use Rattle.lms_ots.specs.Words.{part, u32_at};
ghost use Rattle.lms_tree.specs.Types.{level_at};
ghost use Rattle.hss_keys.specs.Verifies.{HssVerifies, VerifiesBelow};

use lms_ots::{u32_at, word_law};
use lms_tree::{level_at, lms_sig_len, verify};

/// The bytes of an HSS public key: the number of levels, and the LMS public key of the top tree.
pub type Key60 = [u8; 60];

/// An HSS public key (RFC 8554, 6.1).
#[derive(Clone, Copy, PartialEq, Eq, Debug)]
pub struct HssPublic {
    pub levels: u32,
    pub public: [u8; 56],
}

impl HssPublic {
    /// Reads a key; `None` where and only where it counts no level or more than eight, or has an unknown type code.
    pub fn read(key: &Key60) -> Option<HssPublic>
        ensures some { IsSome result
            ↔ ((1 ≤ u32_at key.now 0) × (u32_at key.now 0 ≤ 8) × IsSome (level_at key.now 4)) }
        ensures levels { IfSome result (λ read. read.levels ≡ u32_at key.now 0) }
        ensures public { IfSome result (λ read. read.public ≡ part key.now 4 56) }
    {
        let levels = u32_at(key, 0);
        if levels < 1 || levels > 8 {
            return None;
        }
        if level_at(key, 4).is_none() {
            return None;
        }
        Some(HssPublic {
            levels,
            public: public_at(key, 4),
        })
    }
}

// The LMS public key in `bytes` from byte `at` on.
#[tactic(auto, unfolding(lms_ots::specs::Words::part))]
fn public_at(bytes: &[u8], at: usize) -> [u8; 56]
    requires { at + 56 ≤ length bytes.now }
    ensures { result ≡ part bytes.now at 56 }
{
    let mut public = [0; 56];
    public.copy_from_slice(&bytes[at..at + 56]);
    public
}

/// Tells whether `sig` is a signature on `msg` under the HSS key `key`: the key has 1 to 8 levels,
/// the first word of the signature is one less, each level's signature verifies the next level's
/// key and that of the lowest the message, where the bytes end (RFC 8554, 6.3). It takes no memory.
pub fn hss_verify(key: &Key60, msg: &[u8], sig: &[u8]) -> bool
    ensures { IsTrue result ↔ HssVerifies key.now sig.now msg.now }
{
    word_law();
    match HssPublic::read(key) {
        None => false,
        Some(public) => {
            sig.len() >= 4
                && u32_at(sig, 0) == public.levels - 1
                && verify_below(public.levels - 1, &public.public, msg, &sig[4..])
        }
    }
}

// Verifies under an LMS key with `count` levels below it.
fn verify_below(count: u32, public: &[u8; 56], msg: &[u8], sig: &[u8]) -> bool
    ensures { IsTrue result ↔ VerifiesBelow count public.now sig.now msg.now }
{
    word_law();
    if count == 0 {
        return verify(public, sig, msg);
    }
    match level_at(public, 0) {
        None => false,
        Some(level) => {
            let len = lms_sig_len(level);
            if sig.len() < len + 56 {
                return false;
            }
            let next = public_at(sig, len);
            verify(public, &sig[..len], &next)
                && verify_below(count - 1, &next, msg, &sig[len + 56..])
        }
    }
}
