// The records that a registrar was handed or has read. They exist in clauses alone and take no memory.
ghost use Rattle.std.specs.Prelude.{◌≡◌, [], ◌++◌, ◌∷◌};
ghost use Rattle.registrar.specs.Seen.{log_of};

use std::snapshot::Snapshot;

// No record, or those before and one more.
#[derive(Drop)]
pub enum Records {
    Nothing,
    Then(Snapshot<Records>, Snapshot<Vec<u8>>),
}

pub fn no_records() -> Snapshot<Records>
    ensures { log_of result.value ≡ [] }
{
    Snapshot::of(&Records::Nothing)
}

pub fn with_record(before: Snapshot<Records>, body: &Vec<u8>) -> Snapshot<Records>
    ensures { log_of result.value ≡ log_of before.value ++ body.now.items ∷ [] }
{
    Snapshot::of(&Records::Then(before, Snapshot::of(body)))
}
