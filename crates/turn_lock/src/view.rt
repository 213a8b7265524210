// What a seat knows.
ghost use Rattle.std.specs.Prelude.{ℕ, List, Bool};
ghost use Rattle.std.specs.Borrow.{ftrue};

use std::marker::Model;

/// A caller's view. No value of it is made.
pub struct View {
    // of 1,024, how much of the lock it is
    pub ghost weight: { ℕ },
    // the list that was seen last
    pub ghost seen: { List (List ℕ) },
    // lists that begin it
    pub ghost notes: { List (List (List ℕ)) },
    // it has the turn,
    pub ghost turn: { Bool },
    // which found this list
    pub ghost found: { List (List ℕ) },
}

impl Model for View {
    ghost also_owns = { λ _. ftrue };
}
