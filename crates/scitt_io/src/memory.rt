// The memory forms: they tell their content, and fail at the calls that their plan lists.
ghost use Rattle.std.specs.Prelude.{◌≡◌, ℕ, ◌+◌, ◌↔◌, [], ◌∷◌, ◌++◌, List, length, min, take, drop, IsErr, IsTrue, Some, vec_items, OnOk, OnErr, IfSome, IfOk, None, ◌<◌, is_some, map, ⊤, ◌⊎◌};
ghost use Rattle.std.specs.declared.option.Option.{Option};
ghost use Rattle.std.specs.Io.{ReadsAtMost, WritesAtMost};
ghost use Rattle.std.specs.Io.KnownBytes.{ReadConsumes, WriteAppends};
ghost use Rattle.scitt_io.specs.Causes.{HasCause};

use crate::folder::Folder;
use crate::names::Names;
use crate::plan::Plan;
use crate::shelf::{chosen_bytes, give, place_of};
use crate::sink::{Sink, WriteFault};
use crate::source::{ReadFault, Source};
use std::alloc::Global;
use std::marker::Model;

/// A source over bytes in memory.
#[derive(Drop)]
pub struct MemSource {
    bytes: Vec<u8>,
    at: usize,
    plan: Plan,
}

impl Model for MemSource {
    ghost use Rattle.std.specs.Prelude.{drop, length, ◌≤◌};
    ghost use Rattle.scitt_io.specs.Memory.{Input};

    ghost Value = { Input };

    ghost view = { λ s. record { left = drop s.at s.bytes.items; plan = s.plan } };

    ghost invariant = { λ s. s.at ≤ length s.bytes.items };
}

impl MemSource {
    ghost use Rattle.scitt_io.specs.Plan.{plan_of};

    pub fn new(bytes: Vec<u8>, fails: Vec<u32>) -> Self
        ensures { result ≡ record { left = bytes.items; plan = plan_of fails } }
    {
        MemSource {
            bytes,
            at: 0,
            plan: Plan::new(fails),
        }
    }

    pub fn faults(&self) -> u64
        ensures { result ≡ self.now.plan.faults }
    {
        self.plan.faults
    }
}

impl Source for MemSource {
    ghost use Rattle.scitt_io.specs.Plan.{is_listed, after_call};

    ghost left = { λ s. Some s.left };

    ghost faults = { λ s. s.plan.faults };

    ghost read_keeps = { λ _ _. Unit {0} };

    ghost read_keeps_self = { λ _. tt };

    ghost read_keeps_then = { λ _ _ _ _ _. tt };

    fn read(&mut self, buf: &mut [u8]) -> Result<usize, ReadFault>
        ensures bound { ReadsAtMost result buf.new }
        ensures bytes { ReadConsumes (Some self.old.left) (Some self.new.left) result buf.new }
        ensures telling { is_some (Some self.new.left) ≡ is_some (Some self.old.left) }
        ensures cause { HasCause self.old.plan.faults self.new.plan.faults result }
        ensures keeps { Unit {0} }
        ensures listed { IsErr result ↔ IsTrue (is_listed self.old.plan) }
        ensures counted { self.new.plan ≡ after_call self.old.plan }
    {
        if self.plan.fails_now() {
            return Err(ReadFault);
        }
        let count = give(&self.bytes, self.at, buf);
        self.at += count;
        Ok(count)
    }
}

/// A sink that keeps what is written.
#[derive(Drop)]
pub struct MemSink {
    taken: Vec<u8>,
    plan: Plan,
}

impl Model for MemSink {
    ghost use Rattle.scitt_io.specs.Memory.{Output};

    ghost Value = { Output };

    ghost view = { λ s. record { taken = s.taken.items; plan = s.plan } };
}

impl MemSink {
    ghost use Rattle.scitt_io.specs.Plan.{plan_of};

    /// A sink to which nothing was written yet.
    pub fn new(alloc: Global, fails: Vec<u32>) -> Self
        ensures { result ≡ record { taken = []; plan = plan_of fails } }
    {
        MemSink {
            taken: Vec::new(alloc),
            plan: Plan::new(fails),
        }
    }

    pub fn faults(&self) -> u64
        ensures { result ≡ self.now.plan.faults }
    {
        self.plan.faults
    }

    /// The bytes that were written.
    pub fn into_content(self) -> Vec<u8>
        ensures { result.items ≡ self.taken }
    {
        self.taken
    }
}

impl Sink for MemSink {
    ghost use Rattle.scitt_io.specs.Plan.{is_listed, after_call, after_refusal};

    ghost taken = { λ s. Some s.taken };

    ghost refused = { λ s. s.plan.faults };

    ghost write_keeps = { λ _ _. Unit {0} };

    ghost write_keeps_self = { λ _. tt };

    ghost write_keeps_then = { λ _ _ _ _ _. tt };

    /// Takes the whole piece. It fails at the listed calls, and where the bytes find no memory.
    fn write(&mut self, bytes: &[u8]) -> Result<usize, WriteFault>
        ensures bound { WritesAtMost result bytes.now }
        ensures some { IfOk result (λ n. 0 < length bytes.now → 0 < n) }
        ensures appends { WriteAppends (Some self.old.taken) (Some self.new.taken) result bytes.now }
        ensures telling { is_some (Some self.new.taken) ≡ is_some (Some self.old.taken) }
        ensures cause { HasCause self.old.plan.faults self.new.plan.faults result }
        ensures keeps { Unit {0} }
        ensures whole { IfOk result (λ n. n ≡ length bytes.now) }
        ensures listed { IsTrue (is_listed self.old.plan) → IsErr result }
        ensures counted { OnOk result (self.new.plan ≡ after_call self.old.plan) }
        ensures refused { OnErr result (self.new.plan ≡ after_refusal self.old.plan) }
    {
        if self.plan.fails_now() {
            return Err(WriteFault);
        }
        if self.taken.extend_from_slice(bytes).is_err() {
            self.plan.count_fault();
            return Err(WriteFault);
        }
        Ok(bytes.len())
    }
}

/// A folder of files in memory. Of two files with one name the first counts.
#[derive(Drop)]
pub struct MemFolder {
    files: Vec<(String, Vec<u8>)>,
    chosen: Option<usize>,
    at: usize,
    asked: Names,
    plan: Plan,
}

impl Model for MemFolder {
    ghost use Rattle.std.specs.Prelude.{drop, length, ◌≤◌};
    ghost use Rattle.scitt_io.specs.Memory.{Files};
    ghost use Rattle.scitt_io.specs.Shelf.{contents, chosen_bytes};

    ghost Value = { Files };

    ghost view = { λ f. record { files = contents f.files.items; left = drop f.at (chosen_bytes f.files.items f.chosen); asked = f.asked; plan = f.plan } };

    ghost invariant = { λ f. f.at ≤ length (chosen_bytes f.files.items f.chosen) };
}

impl MemFolder {
    ghost use Rattle.scitt_io.specs.Plan.{plan_of};
    ghost use Rattle.scitt_io.specs.Shelf.{contents};

    /// A folder of which no file is chosen yet.
    pub fn new(files: Vec<(String, Vec<u8>)>, fails: Vec<u32>) -> Self
        ensures { result ≡ record { files = contents files.items; left = []; asked = []; plan = plan_of fails } }
    {
        MemFolder {
            files,
            chosen: None,
            at: 0,
            asked: Names::new(),
            plan: Plan::new(fails),
        }
    }

    pub fn faults(&self) -> u64
        ensures { result ≡ self.now.plan.faults }
    {
        self.plan.faults
    }
}

impl Source for MemFolder {
    ghost use Rattle.scitt_io.specs.Plan.{is_listed, after_call};

    ghost left = { λ f. Some f.left };

    ghost faults = { λ f. f.plan.faults };

    ghost read_keeps = { λ a b. (b.files ≡ a.files) × (b.asked ≡ a.asked) };

    ghost use Rattle.std.proofs.Common.{refl, ◌∙◌};

    ghost read_keeps_self = { λ _. (refl, refl) };

    ghost read_keeps_then = { λ _ _ _ p q. (q.0 ∙ p.0, q.1 ∙ p.1) };

    fn read(&mut self, buf: &mut [u8]) -> Result<usize, ReadFault>
        ensures bound { ReadsAtMost result buf.new }
        ensures bytes { ReadConsumes (Some self.old.left) (Some self.new.left) result buf.new }
        ensures telling { is_some (Some self.new.left) ≡ is_some (Some self.old.left) }
        ensures cause { HasCause self.old.plan.faults self.new.plan.faults result }
        ensures keeps { (self.new.files ≡ self.old.files) × (self.new.asked ≡ self.old.asked) }
        ensures listed { IsErr result ↔ IsTrue (is_listed self.old.plan) }
        ensures counted { self.new.plan ≡ after_call self.old.plan }
    {
        if self.plan.fails_now() {
            return Err(ReadFault);
        }
        let bytes = chosen_bytes(&self.files, self.chosen);
        let count = give(bytes, self.at, buf);
        self.at += count;
        Ok(count)
    }
}

impl Folder for MemFolder {
    ghost use Rattle.scitt_io.specs.Plan.{is_listed, after_call, after_refusal};
    ghost use Rattle.scitt_io.specs.Files.{file_named, ReadsFile};

    ghost files = { λ f. Some (file_named f.files) };

    ghost asked = { λ f. f.asked };

    ghost use Rattle.std.proofs.Common.{ap};

    ghost files_kept = { λ _ _ p. ap (λ files. Some (file_named files)) p.0 };

    ghost asked_kept = { λ _ _ p. p.1 };

    /// It fails at the listed calls, and where no file has this name, which counts as a fault too.
    fn choose(&mut self, name: &str) -> Result<(), ReadFault>
        ensures chosen { OnOk result (IfSome (Some (file_named self.old.files)) (λ file_of. ReadsFile (file_of name.now) (Some self.new.left))) }
        ensures unchosen { OnErr result (Some self.new.left ≡ Some self.old.left) }
        ensures telling { is_some (Some self.new.left) ≡ is_some (Some self.old.left) }
        ensures kept { Some (file_named self.new.files) ≡ Some (file_named self.old.files) }
        ensures asked { self.new.asked ≡ self.old.asked ++ name.now ∷ [] }
        ensures cause { HasCause self.old.plan.faults self.new.plan.faults result }
        ensures listed { IsErr result ↔ (IsTrue (is_listed self.old.plan) ⊎ (file_named self.old.files name.now ≡ None)) }
        ensures counted { OnOk result (self.new.plan ≡ after_call self.old.plan) }
        ensures refused { OnErr result (self.new.plan ≡ after_refusal self.old.plan) }
    {
        self.asked.add(name);
        if self.plan.fails_now() {
            return Err(ReadFault);
        }
        let Some(place) = place_of(&self.files, name) else {
            self.plan.count_fault();
            return Err(ReadFault);
        };
        self.chosen = Some(place);
        self.at = 0;
        Ok(())
    }
}
