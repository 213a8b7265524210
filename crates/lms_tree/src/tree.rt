// Trees that sign (RFC 8554, 5.3 and 5.4).

ghost use Rattle.std.specs.Prelude.{◌≡◌, ◌⊎◌, ◌+◌, ◌*◌, ◌<◌, ◌≤◌, ◌++◌, IfOk, length, take};
ghost use Rattle.lms_ots.specs.Parameters.{parameters};
ghost use Rattle.lms_ots.specs.OneTime.{ots_sig};
ghost use Rattle.lms_tree.specs.Types.{height, leaf_count, sig_len};
ghost use Rattle.lms_tree.specs.Nodes.{child_id, child_seed, lms_public, lms_sig};
ghost use Rattle.lms_tree.specs.Verifies.{LmsVerifies};
ghost use Rattle.lms_tree.specs.Trees.{IsTree, TreeKey};

use crate::growing::{fill, write_path};
use crate::laws::lms_law;
use crate::table::{id_at, leaf_count};
use crate::types::Level;
use lms_ots::{Hash, OtsAt, OtsType, ots_sig_len, ots_sign_into, put, spare_secret, u32str};
use std::alloc::{AllocError, Global};
use std::marker::Model;

/// Want of memory.
pub type OutOfMemory = AllocError;

/// What the tree below a leaf is made from.
#[derive(Clone, Copy)]
pub struct TreeSeed {
    /// I, the identifier of that tree.
    pub id: [u8; 16],
    /// The seed of its secrets.
    pub seed: Hash,
}

/// A tree of one-time keys, with all its nodes. A contract sees its level, its identifier I and its
/// seed.
#[derive(Drop)]
pub struct Tree {
    level: Level,
    id: [u8; 16],
    seed: Hash,
    // Node r at place r, from 1 on.
    nodes: Vec<Hash>,
}

impl Model for Tree {
    ghost Value = { TreeKey };

    ghost view = { λ t. record { level = t.level; id = t.id; seed = t.seed } };

    ghost invariant = { λ t. IsTree t.level t.id t.seed t.nodes.items };
}

impl Tree {
    /// The tree of this level, identifier and seed. It takes memory for 2^(h+1) hashes, once.
    pub fn build(alloc: Global, level: Level, id: [u8; 16], seed: Hash) -> Result<Tree, OutOfMemory>
        requires { (height level ≡ 5) ⊎ (height level ≡ 10) }
        ensures { IfOk result (λ tree. tree ≡ record { level = level; id = id; seed = seed }) }
    {
        let mut nodes = vec![in alloc; [0; 32]; 2 * leaf_count(level) as usize]?;
        fill(&mut nodes, level, id, &seed);
        Ok(Tree {
            level,
            id,
            seed,
            nodes,
        })
    }

    /// The public key: the type codes, I and T[1].
    pub fn public(&self) -> [u8; 56]
        ensures { result ≡ lms_public self.now.level self.now.id self.now.seed }
    {
        let mut out = [0; 56];
        let lms_end = put(&mut out, 0, &u32str(self.level.lms.parameters().code));
        let ots_end = put(&mut out, lms_end, &u32str(self.level.ots.parameters().code));
        let id_end = put(&mut out, ots_end, &self.id);
        put(&mut out, id_end, &self.nodes[1]);
        out
    }

    /// The types of the tree and of its one-time keys.
    pub fn level(&self) -> Level
        ensures { result ≡ self.now.level }
    {
        self.level
    }

    /// The identifier and the seed of the tree below leaf `q`, from secrets of that leaf whose numbers
    /// no chain has (RFC 8554, appendix A).
    #[tactic(auto, unfolding(crate::specs::Nodes::child_id, crate::specs::Nodes::child_seed))]
    pub fn child(&self, q: u32) -> TreeSeed
        requires { q < leaf_count self.now.level }
        ensures id { result.id ≡ child_id self.now.id self.now.seed q }
        ensures seed { result.seed ≡ child_seed self.now.id self.now.seed q }
    {
        let at = OtsAt { id: self.id, q };
        TreeSeed {
            id: id_at(&spare_secret(&at, 0xffff, &self.seed), 0),
            seed: spare_secret(&at, 0xfffe, &self.seed),
        }
    }

    /// Writes the signature of leaf `q` on `msg` into `buf`, which has the level's length. It
    /// verifies under the tree's public key.
    pub fn sign_into(&self, q: u32, msg: &[u8], buf: &mut [u8])
        requires leaf { q < leaf_count self.now.level }
        requires len { length buf.old ≡ sig_len self.now.level }
        ensures written { buf.new ≡ lms_sig self.now.level self.now.id self.now.seed q msg.now }
        ensures verifies { LmsVerifies (lms_public self.now.level self.now.id self.now.seed) buf.new msg.now }
    {
        lms_law();
        let at = OtsAt { id: self.id, q };
        let q_end = put(buf, 0, &u32str(q));
        let ots_end = write_ots(self.level.ots, &at, &self.seed, msg, buf, q_end);
        let code_end = put(buf, ots_end, &u32str(self.level.lms.parameters().code));
        write_path(&self.nodes, self.level, q, buf, code_end);
    }
}

// Writes a one-time signature into `buf` from byte `start` on, and gives the place behind it.
fn write_ots(
    kind: OtsType,
    at: &OtsAt,
    seed: &Hash,
    msg: &[u8],
    buf: &mut [u8],
    start: usize,
) -> usize
    requires { start + (parameters kind).sig_len ≤ length buf.old }
    ensures end { result ≡ start + (parameters kind).sig_len }
    ensures written { take result buf.new ≡ take start buf.old ++ ots_sig kind at.now seed.now msg.now }
{
    let end = start + ots_sig_len(kind);
    ots_sign_into(kind, at, seed, msg, &mut buf[start..end]);
    end
}
