// One-time keys, signatures and candidate keys (RFC 8554, 4.3 to 4.6).

ghost use Rattle.std.specs.Prelude.{◌≡◌, ◌≢◌, ℕ, ◌↔◌, ◌+◌, ◌*◌, ◌<◌, ◌≤◌, ◌++◌, length, IfOk, IsSomeAnd};
ghost use Rattle.lms_ots.specs.Words.{part};
ghost use Rattle.lms_ots.specs.Parameters.{parameters};
ghost use Rattle.lms_ots.specs.OneTime.{front_type, message_hash, ots_candidate, ots_key, ots_sig, randomizer};
ghost use Rattle.lms_ots.specs.declared.parameters.OtsType.{OtsType};

use crate::chains::{OtsAt, chain, ots_secret, prefix};
use crate::digits::{coef, top, with_checksum};
use crate::parameters::OtsType;
use crate::table::{ots_sig_len, ots_type};
use crate::words::{Hash, hash_at, put, u32_at, u32str};
use sha2::{Digest, Sha256};

const D_PBLC: [u8; 2] = [0x80, 0x80];

const D_MESG: [u8; 2] = [0x81, 0x81];

/// Why a one-time signature has no candidate key.
#[derive(Clone, Copy, PartialEq, Eq, Debug)]
pub enum OtsStop {
    /// The signature doesn't begin with the four bytes of a type's code.
    BadType,
    /// It is longer or shorter than signatures of its type.
    BadLength,
}

/// The public key K of a seed (RFC 8554, 4.3, with the secrets of appendix A).
pub fn ots_key_into(kind: OtsType, at: &OtsAt, seed: &Hash) -> Hash
    ensures { result ≡ ots_key kind at.now seed.now }
{
    let row = kind.parameters();
    let mut hasher = Sha256::new();
    hasher.update(&prefix(at, D_PBLC));
    for i in 0..row.chains {
        let secret = ots_secret(at, i, seed);
        hasher.update(&chain(at, i, 0, top(row.width), secret));
    }
    hasher.finalize()
}

/// Writes the signature of `msg` into `buf`, which has the type's length (RFC 8554, 4.5). C is the
/// secret of the chain number `fffd`. The key of the same seed is the signature's candidate key.
pub fn ots_sign_into(kind: OtsType, at: &OtsAt, seed: &Hash, msg: &[u8], buf: &mut [u8])
    requires { length buf.old ≡ (parameters kind).sig_len }
    ensures written { buf.new ≡ ots_sig kind at.now seed.now msg.now }
    ensures typed { front_type buf.new ≡ Some kind }
    ensures key { ots_candidate kind at.now buf.new msg.now ≡ ots_key kind at.now seed.now }
{
    let row = kind.parameters();
    let randomizer = ots_secret(at, 0xfffd, seed);
    let digits = with_checksum(kind, &message_hash(at, &randomizer, msg));
    let code_end = put(buf, 0, &u32str(row.code));
    let mut end = put(buf, code_end, &randomizer);
    for i in 0..row.chains {
        let secret = ots_secret(at, i, seed);
        let digit = coef(&digits, i as usize, row.width);
        end = put(buf, end, &chain(at, i, 0, digit, secret));
    }
}

/// The candidate key of the signature `sig` on `msg` (RFC 8554, 4.6, algorithm 4b).
///
/// `BadType` where and only where the signature doesn't begin with a type's code; `BadLength` where
/// and only where it does, but is longer or shorter than signatures of that type. So where there is a
/// candidate key, the signature begins with a type's code and has that type's length.
pub fn ots_public_from(at: &OtsAt, sig: &[u8], msg: &[u8]) -> Result<Hash, OtsStop>
    ensures bad_type { (result ≡ Err OtsStop.BadType) ↔ (front_type sig.now ≡ None) }
    ensures bad_length { (result ≡ Err OtsStop.BadLength)
        ↔ IsSomeAnd (front_type sig.now) (λ kind. length sig.now ≢ (parameters kind).sig_len) }
    ensures key { (kind : OtsType) → front_type sig.now ≡ Some kind
        → length sig.now ≡ (parameters kind).sig_len
        → result ≡ Ok (ots_candidate kind at.now sig.now msg.now) }
    ensures ok { IfOk result (λ key. IsSomeAnd (front_type sig.now) (λ kind. (length sig.now ≡ (parameters kind).sig_len)
        × (key ≡ ots_candidate kind at.now sig.now msg.now))) }
{
    match front_type(sig) {
        None => Err(OtsStop::BadType),
        Some(kind) => {
            if sig.len() == ots_sig_len(kind) {
                Ok(candidate(kind, at, sig, msg))
            } else {
                Err(OtsStop::BadLength)
            }
        }
    }
}

fn front_type(sig: &[u8]) -> Option<OtsType>
    ensures { result ≡ front_type sig.now }
{
    if sig.len() < 4 {
        None
    } else {
        ots_type(u32_at(sig, 0))
    }
}

fn candidate(kind: OtsType, at: &OtsAt, sig: &[u8], msg: &[u8]) -> Hash
    requires { (parameters kind).sig_len ≤ length sig.now }
    ensures { result ≡ ots_candidate kind at.now sig.now msg.now }
{
    let row = kind.parameters();
    let digits = with_checksum(kind, &message_hash(at, &hash_at(sig, 4), msg));
    let mut hasher = Sha256::new();
    hasher.update(&prefix(at, D_PBLC));
    for i in 0..row.chains {
        let signed = hash_at(sig, 36 + 32 * i as usize);
        let digit = coef(&digits, i as usize, row.width);
        hasher.update(&chain(at, i, digit, top(row.width), signed));
    }
    hasher.finalize()
}

// Q, the hash of the message under the randomizer.
#[tactic(auto, unfolding(crate::specs::OneTime::message_hash))]
fn message_hash(at: &OtsAt, randomizer: &Hash, msg: &[u8]) -> Hash
    ensures { result ≡ message_hash at.now randomizer.now msg.now }
{
    let mut hasher = Sha256::new();
    hasher.update(&prefix(at, D_MESG));
    hasher.update(randomizer);
    hasher.update(msg);
    hasher.finalize()
}
