// Laws of a connection's answers.
ghost use Rattle.scrapi.specs.Laws.{AdmittedIsNew, ExhaustedIsFound};

/// Laws: an entry that is answered 201 is not among those that its turn found; and where no index is left, the number that is told is the
/// next index that the turn found, which is the capacity. The turn of a connection's last answer is the one that the seat tells.
#[tactic(auto, using(crate::proofs::Created::admitted_is_new, crate::proofs::Created::exhausted_is_found))]
pub fn connection_laws()
    ensures admitted { AdmittedIsNew }
    ensures exhausted { ExhaustedIsFound }
{}
