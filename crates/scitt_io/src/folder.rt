ghost use Rattle.std.specs.Prelude.{◌≡◌, ℕ, List, [], ◌∷◌, ◌++◌, OnErr, OnOk, IfSome, is_some};
ghost use Rattle.std.specs.declared.option.Option.{Option};
ghost use Rattle.scitt_io.specs.Causes.{HasCause};
ghost use Rattle.scitt_io.specs.Files.{ReadsFile};

use crate::source::{ReadFault, Source};

/// Files by name, of which one at a time is read.
pub trait Folder: Source {
    // the bytes of the file of each name, where the folder tells its files
    ghost files: { Self → Option (List ℕ → Option (List ℕ)) };

    // the names that were asked for so far, found or not, the first one first
    ghost asked: { Self → List (List ℕ) };

    /// Chooses the file of this name, which reads then give from its first byte on. It is a fault where
    /// there is no such file, and what was being read goes on then. Before any choice reads give nothing.
    fn choose(&mut self, name: &str) -> Result<(), ReadFault>
        ensures chosen { OnOk result (IfSome (files self.old) (λ file_of. ReadsFile (file_of name.now) (Self.left self.new))) }
        ensures unchosen { OnErr result (Self.left self.new ≡ Self.left self.old) }
        ensures telling { is_some (Self.left self.new) ≡ is_some (Self.left self.old) }
        ensures kept { files self.new ≡ files self.old }
        ensures asked { asked self.new ≡ asked self.old ++ name.now ∷ [] }
        ensures cause { HasCause (Self.faults self.old) (Self.faults self.new) result };

    ghost files_kept: { (a b : Self) → Self.read_keeps a b → files b ≡ files a };

    ghost asked_kept: { (a b : Self) → Self.read_keeps a b → asked b ≡ asked a };
}
