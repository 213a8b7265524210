// Turns on a registrar, as a session makes them.
ghost use Rattle.std.specs.Prelude.{◌≡◌, ℕ, Bool, List, Option};
ghost use Rattle.std.specs.Result.{result_ok};
ghost use Rattle.statement.specs.Said.{Said, said_of};
ghost use Rattle.registrar.specs.Turns.{register_call, receipt_call, statement_call, consistency_call, policy_call, keys_call, key_hint_call, registered, read, made, hint};
ghost use Rattle.scitt_answers.specs.Marks.{Mark, Turned, TurnedTo, asks, looks};
ghost use Rattle.scitt_answers.specs.Holding.{NamesKey};

use cbor_core::Bytes;
use hss_keys::Key60;
use log_replay::Checked;
use registrar::{Outcome, ReadBack};
use statement::Statement;
use std::alloc::{AllocError, Global};

/// Turns on a registrar: whole calls on it, one after another; others may make theirs between them.
pub trait Turns {
    // whether the registrar's disk tells what it holds
    ghost tells: { Bool };

    // it may make turns
    ghost ready: { Self → Type 0 };

    // what the next turn may find
    ghost begins: { Self → Mark → Type 0 };

    // what the last turn found and left
    ghost last: { Self → Mark → Mark → Type 0 };

    // what a turn may find after one that left this
    ghost follows: { Mark → Mark → Type 0 };

    // the key that the log which the last turn left names for a statement
    ghost names: { Self → Said → Option (List ℕ) };

    // the two are one holder
    ghost same: { Self → Self → Type 0 };

    /// The key that the policy in force names for a statement; `None` exactly where it names none.
    fn key_hint(&mut self, statement: &Statement) -> Option<Key60>
        requires ready { ready self.old }
        ensures turned { Turned tells (begins self.old) (last self.new) (asks (key_hint_call (said_of statement.now)) (hint result)) }
        ensures named { names self.new (said_of statement.now) ≡ result }
        ensures ready { ready self.new }
        ensures same { same self.old self.new };

    /// Registers a checked statement at a moment, and says the size after it. Condition: where the log that the last turn left names a
    /// key for the statement, the checked value names that key.
    fn register(&mut self, alloc: Global, checked: &Checked, moment: u64) -> (Outcome, u32)
        requires ready { ready self.old }
        requires key { NamesKey (names self.old (said_of checked.now.statement)) checked.now.pair }
        ensures turned { TurnedTo tells (begins self.old) (last self.new) (asks (register_call (said_of checked.now.statement) moment) (registered result.0)) result.1 }
        ensures ready { ready self.new }
        ensures same { same self.old self.new };

    /// The receipt of an entry, and the size.
    fn receipt(&mut self, alloc: Global, index: u32) -> (Result<Bytes, ReadBack>, u32)
        requires ready { ready self.old }
        ensures turned { TurnedTo tells (begins self.old) (last self.new) (asks (receipt_call index) (read result.0)) result.1 }
        ensures ready { ready self.new }
        ensures same { same self.old self.new };

    /// The logged form of an entry, and the size.
    fn statement(&mut self, alloc: Global, index: u32) -> (Result<Bytes, ReadBack>, u32)
        requires ready { ready self.old }
        ensures turned { TurnedTo tells (begins self.old) (last self.new) (asks (statement_call index) (read result.0)) result.1 }
        ensures ready { ready self.new }
        ensures same { same self.old self.new };

    /// The consistency receipt of an older size, and the size.
    fn consistency(&mut self, alloc: Global, old: u32) -> (Result<Bytes, ReadBack>, u32)
        requires ready { ready self.old }
        ensures turned { TurnedTo tells (begins self.old) (last self.new) (asks (consistency_call old) (read result.0)) result.1 }
        ensures ready { ready self.new }
        ensures same { same self.old self.new };

    /// The policy document in force, and the size. An `Err` is want of memory.
    fn policy(&mut self) -> (Result<Bytes, AllocError>, u32)
        requires ready { ready self.old }
        ensures turned { TurnedTo tells (begins self.old) (last self.new) (asks policy_call (made (result_ok result.0))) result.1 }
        ensures ready { ready self.new }
        ensures same { same self.old self.new };

    /// The key set of the log, and the size. An `Err` is want of memory.
    fn keys(&mut self, alloc: Global) -> (Result<Bytes, AllocError>, u32)
        requires ready { ready self.old }
        ensures turned { TurnedTo tells (begins self.old) (last self.new) (asks keys_call (made (result_ok result.0))) result.1 }
        ensures ready { ready self.new }
        ensures same { same self.old self.new };

    /// How many entries the log has.
    fn size(&mut self) -> u32
        requires ready { ready self.old }
        ensures turned { TurnedTo tells (begins self.old) (last self.new) looks result }
        ensures ready { ready self.new }
        ensures same { same self.old self.new };

    ghost same_self: { (a : Self) → same a a };

    ghost same_then: { (a b c : Self) → same a b → same b c → same a c };

    ghost follows_last: { (a : Self) (found left next : Mark) → last a found left → begins a next → follows left next };
}
