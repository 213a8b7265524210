// Signing over levels of trees.

ghost use Rattle.std.specs.Prelude.{◌≡◌, ◌+◌, ◌*◌, ◌<◌, ◌≤◌, ◌∷◌, IfOk, OnOk, OnErr, length};
ghost use Rattle.hss_keys.specs.Levels.{below_len, capacity};
ghost use Rattle.hss_keys.specs.Keys.{NamesLevels};
ghost use Rattle.hss_keys.specs.Signing.{hss_public, hss_sig};
ghost use Rattle.hss_keys.specs.Signers.{IsSigner, SignerKey, hss_sig_len};
ghost use Rattle.hss_keys.specs.Verifies.{FlatIndex, HssVerifies};

use crate::branch::{Child, grow, regrow, write_below};
use crate::laws::hss_law;
use crate::levels::Levels;
use crate::verifying::Key60;
use lms_ots::{Hash, put, u32str};
use lms_tree::{Level, OutOfMemory, Tree, lms_sig_len};
use std::alloc::Global;
use std::marker::Model;

/// A signing key over levels of trees, with the trees of one index prepared.
#[derive(Drop)]
pub struct Signer {
    levels: Levels,
    top: Tree,
    lower: Vec<Child>,
    index: u64,
}

impl Model for Signer {
    ghost Value = { SignerKey };

    ghost view = { λ s. record { levels = s.levels; id = s.top.id; seed = s.top.seed; prepared = s.index } };

    ghost invariant = { λ s. IsSigner s.levels s.top s.index s.lower.items };
}

impl Signer {
    /// The key of this seed and identifier over these levels, with index 0 prepared.
    pub fn new(
        alloc: Global,
        seed: Hash,
        id: [u8; 16],
        levels: Levels,
    ) -> Result<Signer, OutOfMemory>
        ensures { IfOk result (λ signer. signer ≡ record { levels = levels; id = id; seed = seed; prepared = 0 }) }
    {
        let list = levels.as_slice();
        let top = Tree::build(alloc, list[0], id, seed)?;
        let lower = grow(alloc, &top, &list[1..], 0)?;
        Ok(Signer {
            levels,
            top,
            lower,
            index: 0,
        })
    }

    /// The public key: the number of levels, and the top tree's key (RFC 8554, 6.1).
    pub fn public(&self) -> Key60
        ensures value { result ≡ hss_public self.now.levels self.now.id self.now.seed }
        ensures names { NamesLevels self.now.levels result }
    {
        hss_law();
        let mut key = [0; 60];
        let end = put(&mut key, 0, &u32str(self.levels.as_slice().len() as u32));
        put(&mut key, end, &self.top.public());
        key
    }

    /// How many messages the key signs: 2 to the sum of the heights.
    pub fn capacity(&self) -> u64
        ensures value { result ≡ capacity self.now.levels }
        ensures bound { (0 < result) × (result ≤ 1073741824) }
    {
        self.levels.capacity()
    }

    /// The bytes of a signature.
    #[tactic(auto, using(crate::proofs::LengthLaws::hss_sig_len_bound))]
    pub fn sig_len(&self) -> usize
        ensures value { result ≡ hss_sig_len self.now.levels }
        ensures bound { result ≤ 26648 }
    {
        let levels = self.levels.as_slice();
        4 + below_len(levels[0], &levels[1..])
    }

    /// The index whose trees are prepared.
    pub fn prepared(&self) -> u64
        ensures { result ≡ self.now.prepared }
    {
        self.index
    }

    /// Prepares the trees of `index`, which is below the capacity: it keeps those of the prepared
    /// index that both share, and builds the others. After want of memory the old index is prepared.
    pub fn prepare(&mut self, alloc: Global, index: u64) -> Result<(), OutOfMemory>
        requires { index < capacity self.old.levels }
        ensures ok { OnOk result (self.new ≡ record self.old { prepared = index }) }
        ensures err { OnErr result (self.new ≡ self.old) }
    {
        let levels = self.levels.as_slice();
        regrow(
            alloc,
            &self.top,
            &levels[1..],
            &mut self.lower,
            self.index,
            index,
        )?;
        self.index = index;
        Ok(())
    }

    /// Writes the signature of the prepared index on `msg` into `buf`, which has the key's length
    /// (RFC 8554, 6.2). It verifies under the public key, and its leaf numbers spell the index. It
    /// takes no memory.
    pub fn sign_into(&self, index: u64, msg: &[u8], buf: &mut [u8])
        requires prepared { index ≡ self.now.prepared }
        requires len { length buf.old ≡ hss_sig_len self.now.levels }
        ensures written { buf.new ≡ hss_sig self.now.levels self.now.id self.now.seed index msg.now }
        ensures verifies { HssVerifies (hss_public self.now.levels self.now.id self.now.seed) buf.new msg.now }
        ensures index { FlatIndex self.now.levels buf.new index }
    {
        hss_law();
        write_signature(
            self.levels.as_slice(),
            &self.top,
            &self.lower,
            index,
            msg,
            buf,
        );
    }
}

// Writes the signature of the prepared index.
fn write_signature(
    levels: &[Level],
    top: &Tree,
    lower: &[Child],
    index: u64,
    msg: &[u8],
    buf: &mut [u8],
)
    requires held { IsSigner levels.now top.now index lower.now }
    requires len { length buf.old ≡ hss_sig_len levels.now }
    ensures { buf.new ≡ hss_sig levels.now top.now.id top.now.seed index msg.now }
{
    let below = &levels[1..];
    let end = put(buf, 0, &u32str(below.len() as u32));
    write_below(top, below, lower, index, msg, &mut buf[end..]);
}

// The bytes of the signatures and next keys of a level and those below it.
fn below_len(level: Level, below: &[Level]) -> usize
    requires { length below.now ≤ 2 }
    ensures value { result ≡ below_len level below.now }
    ensures bound { result ≤ 10000 * (length below.now + 1) }
{
    if below.is_empty() {
        return lms_sig_len(level);
    }
    lms_sig_len(level) + 56 + below_len(below[0], &below[1..])
}
