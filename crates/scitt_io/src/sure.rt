// The forms that never fail: their count of faults is the constant 0.
ghost use Rattle.std.specs.Prelude.{◌≡◌, ℕ, [], ◌∷◌, ◌++◌, List, ◌<◌, length, Some, None, IfOk, IsOk, IfSome, OnOk, OnErr, is_some};
ghost use Rattle.std.specs.Io.{ReadsAtMost, WritesAtMost};
ghost use Rattle.std.specs.Io.KnownBytes.{ReadConsumes, WriteAppends};
ghost use Rattle.scitt_io.specs.Causes.{HasCause};

use crate::folder::Folder;
use crate::names::Names;
use crate::shelf::{chosen_bytes, give, place_of};
use crate::sink::{Sink, WriteFault};
use crate::source::{ReadFault, Source};
use std::marker::Model;

/// A source over bytes in memory, which never fails.
#[derive(Drop)]
pub struct SureSource {
    bytes: Vec<u8>,
    at: usize,
}

impl Model for SureSource {
    ghost use Rattle.std.specs.Prelude.{ℕ, List, drop, length, ◌≤◌};

    ghost Value = { List ℕ };

    ghost view = { λ s. drop s.at s.bytes.items };

    ghost invariant = { λ s. s.at ≤ length s.bytes.items };
}

impl SureSource {
    pub fn new(bytes: Vec<u8>) -> Self
        ensures { result ≡ bytes.items }
    {
        SureSource { bytes, at: 0 }
    }
}

impl Source for SureSource {
    ghost left = { λ s. Some s };

    ghost faults = { λ _. 0 };

    ghost read_keeps = { λ _ _. Unit {0} };

    ghost read_keeps_self = { λ _. tt };

    ghost read_keeps_then = { λ _ _ _ _ _. tt };

    fn read(&mut self, buf: &mut [u8]) -> Result<usize, ReadFault>
        ensures bound { ReadsAtMost result buf.new }
        ensures bytes { ReadConsumes (Some self.old) (Some self.new) result buf.new }
        ensures telling { is_some (Some self.new) ≡ is_some (Some self.old) }
        ensures cause { HasCause 0 0 result }
        ensures keeps { Unit {0} }
        ensures sure { IsOk result }
    {
        let count = give(&self.bytes, self.at, buf);
        self.at += count;
        Ok(count)
    }
}

/// A sink that drops what it is given, and never fails. It tells nothing.
#[derive(Drop)]
pub struct SureSink {}

impl SureSink {
    pub fn new() -> Self {
        SureSink {}
    }
}

impl Default for SureSink {
    fn default() -> Self {
        SureSink::new()
    }
}

impl Sink for SureSink {
    ghost taken = { λ _. None };

    ghost refused = { λ _. 0 };

    ghost write_keeps = { λ _ _. Unit {0} };

    ghost write_keeps_self = { λ _. tt };

    ghost write_keeps_then = { λ _ _ _ _ _. tt };

    fn write(&mut self, bytes: &[u8]) -> Result<usize, WriteFault>
        ensures bound { WritesAtMost result bytes.now }
        ensures some { IfOk result (λ n. 0 < length bytes.now → 0 < n) }
        ensures appends { WriteAppends None None result bytes.now }
        ensures telling { is_some {T = List ℕ} None ≡ is_some {T = List ℕ} None }
        ensures cause { HasCause 0 0 result }
        ensures keeps { Unit {0} }
        ensures sure { IsOk result }
    {
        Ok(bytes.len())
    }
}

/// A folder of files in memory, which never fails: a name that it doesn't have is an empty file. Of
/// two files with one name the first counts.
#[derive(Drop)]
pub struct SureFolder {
    files: Vec<(String, Vec<u8>)>,
    chosen: Option<usize>,
    at: usize,
    asked: Names,
}

impl Model for SureFolder {
    ghost use Rattle.std.specs.Prelude.{drop, length, ◌≤◌};
    ghost use Rattle.scitt_io.specs.Memory.{SureFiles};
    ghost use Rattle.scitt_io.specs.Shelf.{contents, chosen_bytes};

    ghost Value = { SureFiles };

    ghost view = { λ f. record { files = contents f.files.items; left = drop f.at (chosen_bytes f.files.items f.chosen); asked = f.asked } };

    ghost invariant = { λ f. f.at ≤ length (chosen_bytes f.files.items f.chosen) };
}

impl SureFolder {
    ghost use Rattle.scitt_io.specs.Shelf.{contents};

    /// A folder of which no file is chosen yet.
    pub fn new(files: Vec<(String, Vec<u8>)>) -> Self
        ensures { result ≡ record { files = contents files.items; left = []; asked = [] } }
    {
        SureFolder {
            files,
            chosen: None,
            at: 0,
            asked: Names::new(),
        }
    }
}

impl Source for SureFolder {
    ghost left = { λ f. Some f.left };

    ghost faults = { λ _. 0 };

    ghost read_keeps = { λ a b. (b.files ≡ a.files) × (b.asked ≡ a.asked) };

    ghost use Rattle.std.proofs.Common.{refl, ◌∙◌};

    ghost read_keeps_self = { λ _. (refl, refl) };

    ghost read_keeps_then = { λ _ _ _ p q. (q.0 ∙ p.0, q.1 ∙ p.1) };

    fn read(&mut self, buf: &mut [u8]) -> Result<usize, ReadFault>
        ensures bound { ReadsAtMost result buf.new }
        ensures bytes { ReadConsumes (Some self.old.left) (Some self.new.left) result buf.new }
        ensures telling { is_some (Some self.new.left) ≡ is_some (Some self.old.left) }
        ensures cause { HasCause 0 0 result }
        ensures keeps { (self.new.files ≡ self.old.files) × (self.new.asked ≡ self.old.asked) }
        ensures sure { IsOk result }
    {
        let bytes = chosen_bytes(&self.files, self.chosen);
        let count = give(bytes, self.at, buf);
        self.at += count;
        Ok(count)
    }
}

impl Folder for SureFolder {
    ghost use Rattle.scitt_io.specs.Files.{file_or_empty, ReadsFile};

    ghost files = { λ f. Some (file_or_empty f.files) };

    ghost asked = { λ f. f.asked };

    ghost use Rattle.std.proofs.Common.{ap};

    ghost files_kept = { λ _ _ p. ap (λ files. Some (file_or_empty files)) p.0 };

    ghost asked_kept = { λ _ _ p. p.1 };

    fn choose(&mut self, name: &str) -> Result<(), ReadFault>
        ensures chosen { OnOk result (IfSome (Some (file_or_empty self.old.files)) (λ file_of. ReadsFile (file_of name.now) (Some self.new.left))) }
        ensures unchosen { OnErr result (Some self.new.left ≡ Some self.old.left) }
        ensures telling { is_some (Some self.new.left) ≡ is_some (Some self.old.left) }
        ensures kept { Some (file_or_empty self.new.files) ≡ Some (file_or_empty self.old.files) }
        ensures asked { self.new.asked ≡ self.old.asked ++ name.now ∷ [] }
        ensures cause { HasCause 0 0 result }
        ensures sure { IsOk result }
    {
        self.asked.add(name);
        self.chosen = place_of(&self.files, name);
        self.at = 0;
        Ok(())
    }
}
