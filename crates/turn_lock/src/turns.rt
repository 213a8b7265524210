// The rule of the table, and what each step tells.
ghost use Rattle.std.specs.Prelude.{◌-◌, ◌+◌};

use crate::grows::Grows;
use crate::view::View;
use atomic_table::{Join, Play, Split, TableRule};
use std::marker::PhantomData;
use std::snapshot::Snapshot;

// The rule.
pub struct Turns<T>(PhantomData<T>);

impl<T: Grows> TableRule<Option<T>, View, Snapshot<T>> for Turns<T> {
    ghost use Rattle.turn_lock.specs.Told.{told_list};
    ghost use Rattle.turn_lock.specs.Views.{resting};
    ghost use Rattle.turn_lock.specs.Turns.{TakesTurns};

    ghost holds = { λ _. TakesTurns (λ x. told_list (T.told x)) };

    ghost first = { λ k. resting 1024 (told_list (T.told k.value)) };
}

// The compare and exchange that wins the turn or loses it.
pub struct Claim<T>(PhantomData<T>);

impl<T: Grows> Play<Option<T>, View> for Claim<T> {
    ghost use Rattle.turn_lock.specs.Told.{told_list};
    ghost use Rattle.turn_lock.specs.Turns.{claimed};

    ghost then = { claimed (λ x. told_list (T.told x)) };
}

// The store that gives the turn up.
pub struct Release<T>(PhantomData<T>);

impl<T: Grows> Play<Option<T>, View> for Release<T> {
    ghost use Rattle.turn_lock.specs.Told.{told_list};
    ghost use Rattle.turn_lock.specs.Turns.{released};

    ghost then = { released (λ x. told_list (T.told x)) };
}

// The load after a join.
pub struct Look<T>(PhantomData<T>);

impl<T: Grows> Play<Option<T>, View> for Look<T> {
    ghost use Rattle.turn_lock.specs.Turns.{seen_longer};

    ghost then = { seen_longer };
}

pub struct Halve;

impl Split<View> for Halve {
    ghost use Rattle.turn_lock.specs.Views.{less, resting};

    ghost left = { less };

    ghost right = { λ v. resting 1 v.seen };
}

pub struct Merge;

impl Join<View> for Merge {
    ghost use Rattle.turn_lock.specs.Views.{both, spent};

    ghost both = { both };

    ghost spent = { spent };
}
