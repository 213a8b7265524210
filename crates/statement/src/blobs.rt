ghost use Rattle.std.specs.Prelude.{◌≡◌, [], ◌∷◌, ◌++◌, length, OnOk, OnErr, IsTrue, ◌↔◌};

use cbor_core::Bytes;
use std::alloc::{AllocError, Global};
use std::marker::Model;

/// Byte strings in a row, that contracts see as the list of them.
#[derive(Drop)]
pub struct Blobs {
    blobs: Vec<Bytes>,
}

impl Model for Blobs {
    ghost use Rattle.std.specs.Prelude.{List, ℕ};
    ghost use Rattle.std.specs.Coded.{coded_list, coded_ℕ};

    ghost Value = { List (List ℕ) };

    ghost coded = { coded_list (coded_list coded_ℕ) };

    ghost view = { λ b. b.blobs.items };
}

impl Blobs {
    /// None.
    pub fn new(alloc: Global) -> Blobs
        ensures { result ≡ [] }
    {
        Blobs {
            blobs: Vec::new(alloc),
        }
    }

    /// The byte strings.
    pub fn as_slice(&self) -> &[Bytes]
        ensures { result.now ≡ self.now }
    {
        self.blobs.as_slice()
    }

    /// How many there are.
    pub fn len(&self) -> usize
        ensures { result ≡ length self.now }
    {
        self.blobs.len()
    }

    /// Whether there are none.
    pub fn is_empty(&self) -> bool
        ensures { IsTrue result ↔ (self.now ≡ []) }
    {
        self.blobs.is_empty()
    }

    /// Adds one at the end. Without memory they stay as they were.
    pub fn push(&mut self, blob: Bytes) -> Result<(), AllocError>
        ensures ok { OnOk result (self.new ≡ self.old ++ blob ∷ []) }
        ensures err { OnErr result (self.new ≡ self.old) }
    {
        self.blobs.push(blob)?;
        Ok(())
    }
}
