// The records that a ledger was handed. They exist in clauses alone: a snapshot has no bytes.
ghost use Rattle.std.specs.Prelude.{◌≡◌, ◌+◌, [], ◌++◌, ◌∷◌, None, Some, length};
ghost use Rattle.scitt_journal.specs.Keeping.{bodies_of, pending_of};

use std::snapshot::Snapshot;

// No record, or those before and one more.
#[derive(Drop)]
pub enum Records {
    Nothing,
    Then(Snapshot<Records>, Snapshot<Vec<u8>>),
}

pub fn no_records() -> Snapshot<Records>
    ensures { bodies_of result.value ≡ [] }
{
    Snapshot::of(&Records::Nothing)
}

pub fn with_record(before: Snapshot<Records>, body: &Vec<u8>) -> Snapshot<Records>
    ensures bodies { bodies_of result.value ≡ bodies_of before.value ++ body.now.items ∷ [] }
    ensures more { length (bodies_of result.value) ≡ length (bodies_of before.value) + 1 }
{
    Snapshot::of(&Records::Then(before, Snapshot::of(body)))
}

// No record is pending, or this one.
#[derive(Drop)]
pub enum Pending {
    Settled,
    Record(Snapshot<Vec<u8>>),
}

pub fn settled() -> Snapshot<Pending>
    ensures { pending_of result.value ≡ None }
{
    Snapshot::of(&Pending::Settled)
}

pub fn record_pending(body: &Vec<u8>) -> Snapshot<Pending>
    ensures { pending_of result.value ≡ Some body.now.items }
{
    Snapshot::of(&Pending::Record(Snapshot::of(body)))
}
