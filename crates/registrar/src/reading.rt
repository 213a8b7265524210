// What is read back of the log.

ghost use Rattle.std.specs.Prelude.{◌≡◌, ℕ, ◌+◌, ◌-◌, ◌<◌, ◌≤◌, IsTrue, IfOk, IfErr, IfSome, OnOk, List, [], length, take, Some, slice_index_or};
ghost use Rattle.std.specs.Result.{result_ok};
ghost use Rattle.sha2.specs.Sha256.{sha256};
ghost use Rattle.cbor_core.specs.Limits.{longest_string};
ghost use Rattle.cbor_core.specs.Exact.{strict_text};
ghost use Rattle.merkle_tree.specs.Paths.{path_of as tree_path_of};
ghost use Rattle.merkle_tree.specs.Consistency.{proof_of};
ghost use Rattle.receipts.specs.Written.{receipt_item};
ghost use Rattle.receipts.specs.Fits.{path_of};
ghost use Rattle.log_replay.specs.declared.parts.Header.{Header};
ghost use Rattle.log_replay.specs.Records.{header_of, entries_of, leaves_of, record_of, batch_in};
ghost use Rattle.log_replay.specs.Answers.{receipt_of, consistency_of, keys_of};
ghost use Rattle.registrar.specs.Turns.{Turn, receipt_call, statement_call, consistency_call, policy_call, keys_call, read, made};
ghost use Rattle.registrar.specs.Reading.{parts_by, back_of, IsPlace, IsEntry, HasLeafHash, IsLoggedByHash, NamesRecord, IsReadStop, IsReadFault};

use crate::registrar::Registrar;
use crate::words::ReadBack;
use cbor_core::{
    Bytes, EncodeStop, Text, strict_item_is_exact, strict_items_are_spelled, strict_text_is_exact,
};
use cose_sign1::key_set;
use log_replay::{
    BatchParts, EntryParts, answer_laws, entry_parts, growth_laws, home_laws, limit_laws,
    read_batch,
};
use merkle_tree::{Path, leaf_hash, mth_laws, path_laws, proof_laws};
use receipts::{Proof, Receipt, encode};
use scitt_disk::Disk;
use scitt_journal::BodyStop;
use sha2::{Digest, Sha256};
use statement::Hash;
use std::alloc::{AllocError, Global};

/// An entry that was read back: its parts, and the signature of its Batch.
#[derive(Drop)]
pub(crate) struct EntryBack {
    pub signature: Bytes,
    pub parts: EntryParts,
}

// The parts of the entry that stands alone and has this leaf hash.
fn parts_alone(
    alloc: Global,
    batch: &BatchParts,
    hash: &Hash,
) -> Result<Option<EntryParts>, AllocError>
    ensures { IfOk result (λ parts. parts ≡ parts_by hash.now batch.now.entries) }
{
    let [leaf] = batch.entries.as_slice() else {
        return Ok(None);
    };
    let found = leaf_hash(leaf.as_slice());
    if found.as_slice() == hash.as_slice() {
        entry_parts(alloc, leaf.as_slice())
    } else {
        Ok(None)
    }
}

// A law: the signature of a Batch that a body spells is short enough for a receipt.
fn signature_law(body: &[u8], batch: &BatchParts)
    requires { batch_in (record_of body.now) ≡ Some batch.now }
    ensures { length batch.now.signature ≤ longest_string }
{
    strict_item_is_exact();
    strict_items_are_spelled();
}

// What a body holds of the entry with this leaf hash.
fn entry_in_body(alloc: Global, body: &[u8], hash: &Hash) -> Result<Option<EntryBack>, AllocError>
    ensures back { IfOk result (λ back. back ≡ back_of hash.now body.now) }
    ensures short { IfOk result (λ back. IfSome back (λ b. length b.signature ≤ longest_string)) }
{
    let Some(batch) = read_batch(alloc, body)? else {
        return Ok(None);
    };
    signature_law(body, &batch);
    let Some(parts) = parts_alone(alloc, &batch, hash)? else {
        return Ok(None);
    };
    let BatchParts {
        entries: _,
        index: _,
        signature,
    } = batch;
    Ok(Some(EntryBack { signature, parts }))
}

// The strict bytes of a receipt whose signature and path are short.
fn receipt_bytes(alloc: Global, receipt: &Receipt) -> Result<Bytes, AllocError>
    requires some { 1 ≤ length receipt.now.name }
    requires most { length receipt.now.name ≤ 128 }
    requires path { length (path_of receipt.now.proof) ≤ 32 }
    requires short { length receipt.now.signature ≤ longest_string }
    ensures { IfOk result (λ bytes. bytes ≡ strict_text (receipt_item receipt.now)) }
{
    strict_text_is_exact();
    match encode(alloc, receipt) {
        Ok(bytes) => Ok(bytes),
        Err(EncodeStop::OutOfMemory) => Err(AllocError),
        Err(EncodeStop::NotStrict) => unreachable!(),
    }
}

// A law: in trees of at most 65,536 leaves a path has at most 16 hashes, and a consistency proof 17.
fn length_law()
    ensures path { (m : ℕ) (entries : List (List ℕ)) → length entries ≤ 65536 → length (tree_path_of m entries) ≤ 16 }
    ensures proof { (m : ℕ) (entries : List (List ℕ)) → length entries ≤ 65536 → 0 < m → m ≤ length entries → length (proof_of m entries) ≤ 17 }
{
    mth_laws();
    path_laws();
    proof_laws();
}

impl<D: Disk> Registrar<D> {
    // The body of a record of the log.
    fn body_back(&mut self, alloc: Global, number: u64) -> Result<Vec<u8>, ReadBack>
        requires { number < length self.old.standing.log }
        ensures body { IfOk result (λ body. IsTrue D.tells → body.items ≡ slice_index_or self.old.standing.log number []) }
        ensures stops { (i : ℕ) → IfErr result (IsReadStop (IsTrue D.tells) self.old.standing.log i) }
        ensures fault { IsReadFault (D.fault_count self.old.disk) (D.fault_count self.new.disk) result }
        ensures held { IsTrue D.tells → D.held self.new.disk ≡ D.held self.old.disk }
        ensures others { self.new ≡ record self.old { disk = self.new.disk } }
        ensures strays { IsTrue D.tells → D.strays self.new.disk ≡ D.strays self.old.disk }
        ensures same { D.same self.old.disk self.new.disk }
    {
        match self.ledger.read(alloc, number) {
            Ok(body) => Ok(body),
            Err(BodyStop::DiskFault) => Err(ReadBack::DiskFault),
            Err(BodyStop::OutOfMemory) => Err(ReadBack::OutOfMemory),
        }
    }

    // Where an entry of the log stands: the number of its record, and its leaf hash.
    fn place_of(&self, index: u32) -> (u64, Hash)
        requires { index < length (entries_of self.now.standing.log) }
        ensures { IsPlace self.now.standing.log index result.0 result.1 }
    {
        home_laws();
        growth_laws();
        (self.state.record_of(index), self.state.tree().leaf(index))
    }

    // An entry of the log, read back.
    fn entry_back(&mut self, alloc: Global, index: u32) -> Result<EntryBack, ReadBack>
        requires { index < length (entries_of self.old.standing.log) }
        ensures entry { IfOk result (λ back. IsTrue D.tells → IsEntry self.old.standing.log index back) }
        ensures short { IfOk result (λ back. length back.signature ≤ longest_string) }
        ensures hashed { IfOk result (λ back. HasLeafHash self.old.standing.log index back.parts) }
        ensures stops { IfErr result (IsReadStop (IsTrue D.tells) self.old.standing.log index) }
        ensures fault { IsReadFault (D.fault_count self.old.disk) (D.fault_count self.new.disk) result }
        ensures held { IsTrue D.tells → D.held self.new.disk ≡ D.held self.old.disk }
        ensures others { self.new ≡ record self.old { disk = self.new.disk } }
        ensures strays { IsTrue D.tells → D.strays self.new.disk ≡ D.strays self.old.disk }
        ensures same { D.same self.old.disk self.new.disk }
    {
        let (number, hash) = self.place_of(index);
        let body = self.body_back(alloc, number)?;
        match entry_in_body(alloc, body.as_slice(), &hash) {
            Ok(Some(back)) => Ok(back),
            Ok(None) => Err(ReadBack::Changed { number }),
            Err(_) => Err(ReadBack::OutOfMemory),
        }
    }

    // The log has a header.
    fn has_header(&self)
        ensures { (h : Header) × (header_of self.now.standing.log ≡ Some h) }
    {
        let _state = &self.state;
    }

    // A receipt by the log's name and key.
    fn receipt_with(
        &self,
        alloc: Global,
        size: u32,
        proof: Proof,
        signature: Bytes,
    ) -> Result<Bytes, AllocError>
        requires path { length (path_of proof) ≤ 32 }
        requires short { length signature ≤ longest_string }
        ensures { (h : Header) → header_of self.now.standing.log ≡ Some h → IfOk result (λ bytes. bytes
            ≡ strict_text (receipt_item (record { name = h.name; kid = sha256 h.key; size = size; proof = proof; signature = signature }))) }
    {
        limit_laws();
        let Some(header) = self.state.header() else {
            unreachable!()
        };
        let name = Text::from_str(alloc, header.name.as_str())?;
        let receipt = Receipt {
            name,
            kid: Sha256::digest(header.key.as_slice()),
            size,
            proof,
            signature,
        };
        receipt_bytes(alloc, &receipt)
    }

    // The path of an entry in the tree of the entries up to and with it.
    fn path_to(&self, index: u32) -> Result<Path, AllocError>
        requires { index < length (entries_of self.now.standing.log) }
        ensures path { IfOk result (λ path. path ≡ tree_path_of index (take (index + 1) (leaves_of self.now.standing.log))) }
        ensures short { IfOk result (λ path. length path ≤ 32) }
        ensures few { index < 65536 }
    {
        growth_laws();
        limit_laws();
        length_law();
        self.state.tree().path(index, index + 1)
    }

    // The proof that the log begins with the one of an older size.
    fn proof_from(&self, old: u32) -> Result<Path, AllocError>
        requires some { 0 < old }
        requires inside { old ≤ length (entries_of self.now.standing.log) }
        ensures path { IfOk result (λ path. path ≡ proof_of old (leaves_of self.now.standing.log)) }
        ensures short { IfOk result (λ path. length path ≤ 32) }
    {
        growth_laws();
        limit_laws();
        length_law();
        self.state.tree().consistency(old, self.state.size())
    }

    // The receipt of an entry that was read back.
    fn receipt_for(&self, alloc: Global, index: u32, back: EntryBack) -> Result<Bytes, AllocError>
        requires index { index < length (entries_of self.now.standing.log) }
        requires short { length back.signature ≤ longest_string }
        ensures { IsEntry self.now.standing.log index back → IfOk result (λ bytes. receipt_of self.now.standing.log index ≡ Some bytes) }
    {
        answer_laws();
        self.sound();
        self.has_header();
        let path = self.path_to(index)?;
        let EntryBack { signature, parts } = back;
        let size = index + 1;
        let proof = Proof::Inclusion {
            size,
            index,
            path,
            at: parts.at,
            rule: parts.rule,
        };
        self.receipt_with(alloc, size, proof, signature)
    }

    // The consistency receipt of an older size, by the signature of the last entry's Batch.
    fn consistency_for(
        &self,
        alloc: Global,
        old: u32,
        last: u32,
        back: EntryBack,
    ) -> Result<Bytes, AllocError>
        requires some { 0 < old }
        requires inside { old ≤ length (entries_of self.now.standing.log) }
        requires last { last + 1 ≡ length (entries_of self.now.standing.log) }
        requires short { length back.signature ≤ longest_string }
        ensures { IsEntry self.now.standing.log last back → IfOk result (λ bytes. consistency_of self.now.standing.log old ≡ Some bytes) }
    {
        answer_laws();
        self.sound();
        self.has_header();
        let path = self.proof_from(old)?;
        let size = self.size();
        let proof = Proof::Consistency { old, size, path };
        self.receipt_with(alloc, size, proof, back.signature)
    }

    /// The receipt of an entry, by the Batch that the disk gives back.
    ///
    /// `NoEntry` where the index isn't below the size. `Changed` where the body that was read of this record isn't a Batch of one entry
    /// with the kept leaf hash: over a disk that tells what it holds it never comes. `DiskFault` where the disk's count of faults rose;
    /// `OutOfMemory`. The registrar stays as it was.
    pub fn receipt(&mut self, alloc: Global, index: u32) -> Result<Bytes, ReadBack>
        ensures turn { Turn (IsTrue D.tells) self.old.standing (receipt_call index) (read result) self.new.standing }
        ensures number { IfErr result (NamesRecord self.old.standing.log index) }
        ensures fault { IsReadFault (D.fault_count self.old.disk) (D.fault_count self.new.disk) result }
        ensures held { IsTrue D.tells → D.held self.new.disk ≡ D.held self.old.disk }
        ensures others { self.new ≡ record self.old { disk = self.new.disk } }
        ensures strays { IsTrue D.tells → D.strays self.new.disk ≡ D.strays self.old.disk }
        ensures same { D.same self.old.disk self.new.disk }
    {
        self.sound();
        let size = self.size();
        if index >= size {
            return Err(ReadBack::NoEntry { index, size });
        }
        let back = self.entry_back(alloc, index)?;
        match self.receipt_for(alloc, index, back) {
            Ok(bytes) => Ok(bytes),
            Err(_) => Err(ReadBack::OutOfMemory),
        }
    }

    /// The logged form of an entry, as the disk gives it back. It answers as `receipt` does.
    pub fn statement(&mut self, alloc: Global, index: u32) -> Result<Bytes, ReadBack>
        ensures turn { Turn (IsTrue D.tells) self.old.standing (statement_call index) (read result) self.new.standing }
        ensures hash { IfOk result (IsLoggedByHash self.old.standing.log index) }
        ensures number { IfErr result (NamesRecord self.old.standing.log index) }
        ensures fault { IsReadFault (D.fault_count self.old.disk) (D.fault_count self.new.disk) result }
        ensures held { IsTrue D.tells → D.held self.new.disk ≡ D.held self.old.disk }
        ensures others { self.new ≡ record self.old { disk = self.new.disk } }
        ensures strays { IsTrue D.tells → D.strays self.new.disk ≡ D.strays self.old.disk }
        ensures same { D.same self.old.disk self.new.disk }
    {
        self.sound();
        let size = self.size();
        if index >= size {
            return Err(ReadBack::NoEntry { index, size });
        }
        let back = self.entry_back(alloc, index)?;
        let EntryBack {
            signature: _,
            parts,
        } = back;
        Ok(parts.logged)
    }

    /// The consistency receipt of an older size, by the Batch of the last entry, which the disk gives back.
    ///
    /// `NoSuchSize` where the older size is 0 or above the size. Its other refusals are those of `receipt`.
    pub fn consistency(&mut self, alloc: Global, old: u32) -> Result<Bytes, ReadBack>
        ensures turn { Turn (IsTrue D.tells) self.old.standing (consistency_call old) (read result) self.new.standing }
        ensures number { IfErr result (NamesRecord self.old.standing.log (length (entries_of self.old.standing.log) - 1)) }
        ensures fault { IsReadFault (D.fault_count self.old.disk) (D.fault_count self.new.disk) result }
        ensures held { IsTrue D.tells → D.held self.new.disk ≡ D.held self.old.disk }
        ensures others { self.new ≡ record self.old { disk = self.new.disk } }
        ensures strays { IsTrue D.tells → D.strays self.new.disk ≡ D.strays self.old.disk }
        ensures same { D.same self.old.disk self.new.disk }
    {
        self.sound();
        let size = self.size();
        if old == 0 || old > size {
            return Err(ReadBack::NoSuchSize { old, size });
        }
        let last = size - 1;
        let back = self.entry_back(alloc, last)?;
        match self.consistency_for(alloc, old, last, back) {
            Ok(bytes) => Ok(bytes),
            Err(_) => Err(ReadBack::OutOfMemory),
        }
    }

    /// The strict bytes of the policy in force.
    pub fn policy(&self) -> Result<Bytes, AllocError>
        ensures { Turn (IsTrue D.tells) self.now.standing policy_call (made (result_ok result)) self.now.standing }
    {
        self.sound();
        self.state.policy()
    }

    /// The strict bytes of the key set that has the log's key alone (RFC 9052, 7).
    pub fn keys(&self, alloc: Global) -> Result<Bytes, AllocError>
        ensures { Turn (IsTrue D.tells) self.now.standing keys_call (made (result_ok result)) self.now.standing }
    {
        self.sound();
        strict_text_is_exact();
        let Some(header) = self.state.header() else {
            unreachable!()
        };
        key_set(alloc, &[header.key])
    }
}
