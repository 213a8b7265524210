// The records of a statement that is admitted, made ready to be written. All that takes memory is here.

ghost use Rattle.std.specs.Prelude.{◌≡◌, ◌≢◌, min, IfSome, IfNone, ℕ, ◌+◌, ◌<◌, ◌≤◌, true, List, [], ◌∷◌, ◌++◌, IfOk, OnOk, length, map, None, Some};
ghost use Rattle.cbor_core.specs.Exact.{strict_text};
ghost use Rattle.hss_keys.specs.Levels.{capacity};
ghost use Rattle.hss_keys.specs.Signing.{hss_public};
ghost use Rattle.hss_keys.specs.Functions.{hss_verifies, flat_index};
ghost use Rattle.merkle_tree.specs.Mth.{leaf_hash};
ghost use Rattle.merkle_tree.specs.Paths.{path_of};
ghost use Rattle.receipts.specs.Signed.{signed_text};
ghost use Rattle.receipts.specs.declared.receipt.Proof.TheVariants.{Inclusion};
ghost use Rattle.receipts.specs.Written.{receipt_item};
ghost use Rattle.sha2.specs.Sha256.{sha256};
ghost use Rattle.statement.specs.Said.{said_of};
ghost use Rattle.log_replay.specs.Records.{Log, header_of, entries_of, leaves_of, reserved_of, batch_record, reserve_record, record_of};
ghost use Rattle.log_replay.specs.Spelling.{body_of};
ghost use Rattle.log_replay.specs.Judging.{moment_after};
ghost use Rattle.log_replay.specs.Steps.{entry_text, batch_with};
ghost use Rattle.log_replay.specs.Answers.{receipt_with};
ghost use Rattle.registrar.specs.Turns.{ruling_of, goes};
ghost use Rattle.log_replay.specs.declared.parts.Header.{Header};
ghost use Rattle.log_replay.specs.StateSeen.{StandsFor};
ghost use Rattle.registrar.specs.Fits.{IsRoomFor, IsHeaded};
ghost use Rattle.registrar.specs.Deciding.{IsReady};
ghost use Rattle.registrar.specs.Ready.{IsNeeded, IsSealed, IsShort};

use crate::registrar::Registrar;
use crate::writing::{Batch, Needed};
use cbor_core::{Bytes, EncodeStop, Text, strict_text_is_exact, zeros};
use hss_keys::{Signer, key_laws, levels_law};
use log_replay::{
    Checked, Header, State, answer_laws, batch_body, entry_bytes, entry_law, fitting_laws,
    growth_laws, home_laws, limit_laws, log_laws, more_laws, reserve_body,
};
use merkle_tree::{Hash, NodeTable, Path, leaf_hash as hash_of, mth_laws, path_laws};
use receipts::{Proof, Receipt, encode, tbs_into, tbs_len};
use scitt_disk::Disk;
use sha2::{Digest, Sha256};
use statement::Blobs;
use std::alloc::{AllocError, Global};

/// What is to be written, and the receipt.
#[derive(Drop)]
pub(crate) struct Writes {
    pub needed: Option<Needed>,
    pub batch: Batch,
    pub receipt: Bytes,
}

/// A Batch and the receipt of its entry.
#[derive(Drop)]
struct Sealed {
    batch: Batch,
    receipt: Bytes,
}

// The signature at an index on the text over a root of so many entries.
fn sign(
    alloc: Global,
    header: &Header,
    signer: &mut Signer,
    index: u64,
    size: u32,
    root: &Hash,
) -> Result<Vec<u8>, AllocError>
    requires some { 1 ≤ length header.now.name }
    requires most { length header.now.name ≤ 128 }
    requires key { header.now.key ≡ hss_public signer.old.levels signer.old.id signer.old.seed }
    requires levels { header.now.levels ≡ signer.old.levels }
    requires left { index < capacity signer.old.levels }
    ensures kept { signer.new ≡ record signer.old { prepared = signer.new.prepared } }
    ensures verifies { IfOk result (λ s. hss_verifies header.now.key s.items (signed_text header.now.name (sha256 header.now.key) size root.now) ≡ true) }
    ensures index { IfOk result (λ s. flat_index header.now.levels s.items ≡ Some index) }
    ensures short { IfOk result (λ s. length s.items ≤ 26648) }
{
    key_laws();
    let Ok(()) = signer.prepare(alloc, index) else {
        return Err(AllocError);
    };
    let kid = Sha256::digest(header.key.as_slice());
    let mut text = zeros(alloc, tbs_len(&header.name, size))?;
    tbs_into(&header.name, &kid, size, root, &mut text);
    let mut signature = zeros(alloc, signer.sig_len())?;
    signer.sign_into(index, &text, &mut signature);
    Ok(signature)
}

// The body of the Batch of this entry.
fn batch_of(
    alloc: Global,
    entry: Bytes,
    index: u64,
    signature: &[u8],
) -> Result<Vec<u8>, AllocError>
    requires entry { length entry ≤ 4198400 }
    requires signature { length signature.now ≤ 26648 }
    ensures reads { IfOk result (λ body. record_of body.items ≡ Some (batch_record (record { entries = entry ∷ []; index = index; signature = signature.now }))) }
    ensures short { IfOk result (λ body. IsShort body.items) }
{
    let mut entries = Blobs::new(alloc);
    entries.push(entry)?;
    let body = batch_body(alloc, &entries, index, signature)?;
    Ok(body.into_vec())
}

// The receipt of the entry of this index, the last one of its tree.
fn receipt_of(
    alloc: Global,
    header: &Header,
    index: u32,
    path: Path,
    at: u64,
    rule: u16,
    signature: &[u8],
) -> Result<Bytes, AllocError>
    requires some { 1 ≤ length header.now.name }
    requires most { length header.now.name ≤ 128 }
    requires room { index < 4294967295 }
    requires path { length path ≤ 32 }
    requires signature { length signature.now ≤ 26648 }
    ensures { IfOk result (λ receipt. (used : ℕ) → receipt ≡ strict_text (receipt_item (receipt_with header.now
        (record { size = index + 1; index = used; signature = signature.now }) (Inclusion (index + 1) index path at rule)))) }
{
    strict_text_is_exact();
    let receipt = Receipt {
        name: Text::from_str(alloc, header.name.as_str())?,
        kid: Sha256::digest(header.key.as_slice()),
        size: index + 1,
        proof: Proof::Inclusion {
            size: index + 1,
            index,
            path,
            at,
            rule,
        },
        signature: Bytes::from_slice(alloc, signature)?,
    };
    match encode(alloc, &receipt) {
        Ok(bytes) => Ok(bytes),
        Err(EncodeStop::OutOfMemory) => Err(AllocError),
        Err(EncodeStop::NotStrict) => unreachable!(),
    }
}

// A Reserve up to this index.
fn reserve_of(alloc: Global, upto: u64) -> Result<Needed, AllocError>
    ensures upto { IfOk result (λ n. n.upto ≡ upto) }
    ensures body { IfOk result (λ n. n.body.items ≡ body_of (reserve_record upto)) }
    ensures reads { IfOk result (λ n. record_of n.body.items ≡ Some (reserve_record upto)) }
    ensures short { IfOk result (λ n. IsShort n.body.items) }
{
    let body = reserve_body(alloc, upto)?.into_vec();
    Ok(Needed { upto, body })
}

// A law: a path in a tree of so many entries has few hashes.
fn path_law()
    ensures { (m : ℕ) (entries : List (List ℕ)) → 1 ≤ length entries → length entries ≤ 65537 → length (path_of m entries) ≤ 32 }
{
    path_laws();
    mth_laws();
}

// The Batch of a statement at an index behind these leaves, and the receipt of its entry.
fn seal(
    alloc: Global,
    header: &Header,
    tree: &NodeTable,
    signer: &mut Signer,
    checked: &Checked,
    index: u64,
    rule: u16,
    at: u64,
) -> Result<Sealed, AllocError>
    requires few { length tree.now.leaves ≤ 65536 }
    requires told { (R : Log) × (map leaf_hash (leaves_of R) ≡ tree.now.leaves) }
    requires some { 1 ≤ length header.now.name }
    requires most { length header.now.name ≤ 128 }
    requires key { header.now.key ≡ hss_public signer.old.levels signer.old.id signer.old.seed }
    requires levels { header.now.levels ≡ signer.old.levels }
    requires left { index < capacity signer.old.levels }
    ensures kept { signer.new ≡ record signer.old { prepared = signer.new.prepared } }
    ensures made { IfOk result (λ s. (R : Log) → map leaf_hash (leaves_of R) ≡ tree.now.leaves
        → IsSealed R header.now (said_of checked.now.statement) at rule index s.batch s.receipt) }
{
    path_law();
    entry_law(&checked.statement, at, rule);
    let size = tree.size();
    let entry = entry_bytes(alloc, at, rule, checked.statement.logged.as_slice())?;
    let hash = hash_of(entry.as_slice());
    let root = tree.root_with(&[hash]);
    let signature = sign(alloc, header, signer, index, size + 1, &root)?;
    let path = tree.path_with(&[hash], size)?;
    let receipt = receipt_of(alloc, header, size, path, at, rule, &signature)?;
    let body = batch_of(alloc, entry, index, &signature)?;
    let batch = Batch {
        at,
        rule,
        index,
        signature,
        body,
    };
    Ok(Sealed { batch, receipt })
}

// How long the longer of the two bodies is.
fn longest(needed: &Option<Needed>, batch: &Batch) -> usize
    ensures needed { IfSome needed.now (λ n. length n.body.items ≤ result) }
    ensures batch { length batch.now.body.items ≤ result }
{
    let len = batch.body.len();
    match needed {
        Some(needed) => len.max(needed.body.len()),
        None => len,
    }
}

// The same by what is kept of a log.
fn seal_behind(
    alloc: Global,
    state: &State,
    signer: &mut Signer,
    checked: &Checked,
    index: u64,
    rule: u16,
    at: u64,
) -> Result<Sealed, AllocError>
    requires stands { (R : Log) × StandsFor state.now R × IsHeaded signer.old R }
    requires left { index < capacity signer.old.levels }
    ensures kept { signer.new ≡ record signer.old { prepared = signer.new.prepared } }
    ensures made { IfOk result (λ s. (R : Log) (h : Header) → StandsFor state.now R → header_of R ≡ Some h
        → IsSealed R h (said_of checked.now.statement) at rule index s.batch s.receipt) }
{
    growth_laws();
    limit_laws();
    home_laws();
    let _size = state.size();
    let Some(header) = state.header() else {
        unreachable!()
    };
    let tree = state.tree();
    seal(alloc, header, tree, signer, checked, index, rule, at)
}

impl<D: Disk> Registrar<D> {
    // Up to which index the Reserve that is needed reserves, where one is needed.
    fn next_upto(&self, header: &Header) -> Option<u64>
        requires header { header_of self.now.standing.log ≡ Some header.now }
        requires left { self.now.standing.next < capacity header.now.levels }
        ensures none { IfNone result (self.now.standing.next ≢ reserved_of self.now.standing.log) }
        ensures upto { IfSome result (λ upto. upto ≡ min (reserved_of self.now.standing.log + header.now.block) (capacity header.now.levels)) }
        ensures spent { IfSome result (λ upto. self.now.standing.next ≡ reserved_of self.now.standing.log) }
    {
        let reserved = self.state.reserved();
        if self.next != reserved {
            return None;
        }
        Some((reserved + u64::from(header.block)).min(header.levels.capacity()))
    }

    // The Reserve that is needed, where one is.
    fn next_reserve(&self, alloc: Global, header: &Header) -> Result<Option<Needed>, AllocError>
        requires header { header_of self.now.standing.log ≡ Some header.now }
        requires left { self.now.standing.next < capacity header.now.levels }
        requires ahead { self.now.standing.next ≤ reserved_of self.now.standing.log }
        ensures { IfOk result (IsNeeded self.now.standing header.now) }
    {
        growth_laws();
        fitting_laws();
        log_laws();
        limit_laws();
        more_laws();
        self.sound();
        let Some(upto) = self.next_upto(header) else {
            return Ok(None);
        };
        let needed = reserve_of(alloc, upto)?;
        Ok(Some(needed))
    }

    // Makes room in the state for an entry of this statement.
    fn make_room(&mut self, checked: &Checked) -> Result<(), AllocError>
        requires { length (entries_of self.old.standing.log) < 65536 }
        ensures others { self.new ≡ record self.old { entry = self.new.entry } }
        ensures entry { OnOk result (IsRoomFor self.new.entry checked.now) }
    {
        home_laws();
        self.state.make_room(checked)
    }

    // The same by the log's header.
    fn needed_next(&self, alloc: Global) -> Result<Option<Needed>, AllocError>
        requires left { (h : Header) → header_of self.now.standing.log ≡ Some h → self.now.standing.next < capacity h.levels }
        ensures { IfOk result (λ needed. (h : Header) → header_of self.now.standing.log ≡ Some h → IsNeeded self.now.standing h needed) }
    {
        let Some(header) = self.state.header() else {
            unreachable!()
        };
        self.next_reserve(alloc, header)
    }

    // The records of a statement that goes into the log, and its receipt.
    fn prepare(
        &mut self,
        alloc: Global,
        checked: &Checked,
        moment: u64,
        rule: u16,
        at: u64,
    ) -> Result<Writes, AllocError>
        requires judged { ruling_of self.old.standing (said_of checked.now.statement) moment ≡ Some (goes rule) }
        requires at { at ≡ moment_after (entries_of self.old.standing.log) moment }
        ensures others { self.new ≡ self.old }
        ensures made { IfOk result (λ w. (room : ℕ) → IfSome w.needed (λ n. length n.body.items ≤ room) → length w.batch.body.items ≤ room
            → IsReady self.old.standing (said_of checked.now.statement) moment rule room w.needed w.batch w.receipt) }
        ensures few { OnOk result (length (entries_of self.old.standing.log) < 65536) }
    {
        growth_laws();
        fitting_laws();
        log_laws();
        limit_laws();
        more_laws();
        home_laws();
        answer_laws();
        levels_law();
        entry_law(&checked.statement, at, rule);
        self.sound();
        let _moment = moment;
        let needed = self.needed_next(alloc)?;
        let sealed = seal_behind(
            alloc,
            &self.state,
            &mut self.signer,
            checked,
            self.next,
            rule,
            at,
        )?;
        let Sealed { batch, receipt } = sealed;
        Ok(Writes {
            needed,
            batch,
            receipt,
        })
    }

    /// All that takes memory: the records and the receipt, and room for them.
    pub(crate) fn ready(
        &mut self,
        alloc: Global,
        checked: &Checked,
        moment: u64,
        rule: u16,
        at: u64,
    ) -> Result<Writes, AllocError>
        requires judged { ruling_of self.old.standing (said_of checked.now.statement) moment ≡ Some (goes rule) }
        requires at { at ≡ moment_after (entries_of self.old.standing.log) moment }
        ensures others { self.new ≡ record self.old { room = self.new.room; places = self.new.places; entry = self.new.entry } }
        ensures made { IfOk result (λ w. IsReady self.old.standing (said_of checked.now.statement) moment rule self.new.room w.needed w.batch w.receipt) }
        ensures places { OnOk result (2 ≤ self.new.places) }
        ensures entry { OnOk result (IsRoomFor self.new.entry checked.now) }
    {
        let writes = self.prepare(alloc, checked, moment, rule, at)?;
        let len = longest(&writes.needed, &writes.batch);
        self.make_room(checked)?;
        self.ledger.reserve_buffer(len)?;
        Ok(writes)
    }
}
