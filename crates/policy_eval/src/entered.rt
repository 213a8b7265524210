// The facts that a history was handed. They exist in clauses alone and take no memory.

ghost use Rattle.std.specs.Prelude.{◌≡◌, [], ◌++◌, ◌∷◌};
ghost use Rattle.policy_eval.specs.Entered.{facts_of};

use policy_rules::Facts;
use std::snapshot::Snapshot;

// No facts, or those before and one entry's more.
#[derive(Drop)]
pub enum Entered {
    Nothing,
    Then(Snapshot<Entered>, Snapshot<Facts>),
}

pub(crate) fn no_facts() -> Snapshot<Entered>
    ensures { facts_of result.value ≡ [] }
{
    Snapshot::of(&Entered::Nothing)
}

pub(crate) fn with_facts(before: Snapshot<Entered>, facts: &Facts) -> Snapshot<Entered>
    ensures { facts_of result.value ≡ facts_of before.value ++ facts.now ∷ [] }
{
    Snapshot::of(&Entered::Then(before, Snapshot::of(facts)))
}
