ghost use Rattle.std.specs.Prelude.{◌≡◌, ◌++◌, [], ◌∷◌, length, MatchBool};

use std::alloc::Global;
use std::marker::Model;
use turn_lock::Grows;

/// A list of byte lists in memory, which it tells.
#[derive(Drop)]
pub struct Notes {
    alloc: Global,
    lines: Vec<Vec<u8>>,
}

impl Model for Notes {
    ghost use Rattle.std.specs.Prelude.{ℕ, List, map};

    ghost Value = { List (List ℕ) };

    ghost view = { λ n. map (λ line. line.items) n.lines.items };
}

impl Grows for Notes {
    ghost use Rattle.std.specs.Prelude.{Some, [], ◌∷◌, length};

    ghost told = { λ n. Some n };

    ghost marked = { λ n. length n ∷ 0 ∷ [] };

    fn len(&self) -> u64 {
        self.lines.len() as u64
    }

    fn marks(&self) -> [u64; 2] {
        [self.lines.len() as u64, 0]
    }
}

impl Notes {
    pub fn new(alloc: Global) -> Notes
        ensures { result ≡ [] }
    {
        Notes {
            alloc,
            lines: Vec::new(alloc),
        }
    }

    /// Adds a line at the end; false without memory.
    pub fn add(&mut self, line: &[u8]) -> bool
        ensures { MatchBool result (self.new ≡ self.old ++ line.now ∷ []) (self.new ≡ self.old) }
    {
        let Ok(copy) = Vec::from_slice(self.alloc, line) else {
            return false;
        };
        self.lines.push(copy).is_ok()
    }

    pub fn lines(&self) -> &[Vec<u8>] {
        self.lines.as_slice()
    }
}

/// A count that tells no list.
#[derive(Drop)]
pub struct Silent {
    pub count: u64,
}

impl Grows for Silent {
    ghost use Rattle.std.specs.Prelude.{None, [], ◌∷◌};

    ghost told = { λ _. None };

    ghost marked = { λ s. s.count ∷ 7 ∷ [] };

    fn len(&self) -> u64 {
        u64::MAX
    }

    fn marks(&self) -> [u64; 2] {
        [self.count, 7]
    }
}
