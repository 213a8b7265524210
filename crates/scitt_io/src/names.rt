// The names that were asked for. They exist in clauses alone: they have no bytes and take no memory.
ghost use Rattle.std.specs.Prelude.{◌≡◌, [], ◌++◌, ◌∷◌};
ghost use Rattle.scitt_io.specs.Names.{name_of, names_of};

use std::marker::Model;
use std::mem;
use std::snapshot::Snapshot;

// No byte, or those before and one more.
#[derive(Drop)]
pub(crate) enum Spelled {
    Empty,
    Longer(Snapshot<Spelled>, u8),
}

// No name, or those before and one more.
#[derive(Drop)]
pub(crate) enum Asked {
    Nothing,
    Then(Snapshot<Asked>, Snapshot<Spelled>),
}

/// Names, as a list that clauses alone see.
#[derive(Drop)]
pub struct Names {
    asked: Snapshot<Asked>,
}

impl Model for Names {
    ghost use Rattle.std.specs.Prelude.{ℕ, List};
    ghost use Rattle.scitt_io.specs.Names.{names_of};

    ghost Value = { List (List ℕ) };

    ghost view = { λ n. names_of n.asked.value };
}

impl Names {
    /// No name.
    pub fn new() -> Self
        ensures { result ≡ [] }
    {
        Names { asked: none() }
    }

    /// Adds a name at the end.
    pub fn add(&mut self, name: &str)
        ensures { self.new ≡ self.old ++ name.now ∷ [] }
    {
        let before = mem::replace(&mut self.asked, none());
        self.asked = then(before, spell(name.as_bytes()));
    }
}

impl Default for Names {
    fn default() -> Self {
        Names::new()
    }
}

fn none() -> Snapshot<Asked>
    ensures { names_of result.value ≡ [] }
{
    Snapshot::of(&Asked::Nothing)
}

fn then(before: Snapshot<Asked>, name: Snapshot<Spelled>) -> Snapshot<Asked>
    ensures { names_of result.value ≡ names_of before.value ++ name_of name.value ∷ [] }
{
    Snapshot::of(&Asked::Then(before, name))
}

fn spell(name: &[u8]) -> Snapshot<Spelled>
    ensures { name_of result.value ≡ name.now }
{
    let mut before = Snapshot::of(&Spelled::Empty);
    for byte in name {
        before = Snapshot::of(&Spelled::Longer(before, *byte));
    }
    before
}
