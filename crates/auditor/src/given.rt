// The records that a reader gave. They exist in clauses alone: a snapshot has no bytes.
ghost use Rattle.std.specs.Prelude.{◌≡◌, [], ◌++◌, ◌∷◌};
ghost use Rattle.auditor.specs.Given.{given_of};

use cbor_core::Bytes;
use std::snapshot::Snapshot;

// No record, or those before and one more.
#[derive(Drop)]
pub(crate) enum Given {
    Nothing,
    Then(Snapshot<Given>, Snapshot<Bytes>),
}

pub(crate) fn none_given() -> Snapshot<Given>
    ensures { given_of result.value ≡ [] }
{
    Snapshot::of(&Given::Nothing)
}

pub(crate) fn given_with(before: Snapshot<Given>, body: &Bytes) -> Snapshot<Given>
    ensures { given_of result.value ≡ given_of before.value ++ body.now ∷ [] }
{
    Snapshot::of(&Given::Then(before, Snapshot::of(body)))
}
