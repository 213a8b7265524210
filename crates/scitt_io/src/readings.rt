// How often a clock was read. The number exists in clauses alone, and so has no end.
ghost use Rattle.std.specs.Prelude.{◌≡◌, ◌+◌};
ghost use Rattle.scitt_io.specs.Readings.{times};

use std::marker::Model;
use std::mem;
use std::snapshot::Snapshot;

// No reading, or those before and one more.
#[derive(Drop)]
pub(crate) enum Tally {
    Nothing,
    More(Snapshot<Tally>),
}

/// A number that clauses alone see.
#[derive(Drop)]
pub struct Readings {
    tally: Snapshot<Tally>,
}

impl Model for Readings {
    ghost use Rattle.std.specs.Prelude.{ℕ};
    ghost use Rattle.scitt_io.specs.Readings.{times};

    ghost Value = { ℕ };

    ghost view = { λ r. times r.tally.value };
}

impl Readings {
    /// None.
    pub fn new() -> Self
        ensures { result ≡ 0 }
    {
        Readings { tally: nothing() }
    }

    /// Counts one more.
    pub fn add(&mut self)
        ensures { self.new ≡ self.old + 1 }
    {
        let before = mem::replace(&mut self.tally, nothing());
        self.tally = more(before);
    }
}

impl Default for Readings {
    fn default() -> Self {
        Readings::new()
    }
}

fn nothing() -> Snapshot<Tally>
    ensures { times result.value ≡ 0 }
{
    Snapshot::of(&Tally::Nothing)
}

fn more(before: Snapshot<Tally>) -> Snapshot<Tally>
    ensures { times result.value ≡ times before.value + 1 }
{
    Snapshot::of(&Tally::More(before))
}
