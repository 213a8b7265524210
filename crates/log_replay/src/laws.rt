// Laws of logs.

ghost use Rattle.log_replay.specs.Laws.{KeptIsJudge, NothingStands, FailingIsFailing, RecordIsAdded, OneMore, OneLess, FrontsAreWellMade};

use merkle_tree::tree_root_laws;

/// A law: what a state tells of a statement and of a record is what the log tells of it, and a record that fails no rule leads from
/// what is kept of a log to what is kept of the log with it.
pub fn state_laws()
    ensures judge { KeptIsJudge }
    ensures nothing { NothingStands }
    ensures failing { FailingIsFailing }
    ensures added { RecordIsAdded }
{
    tree_root_laws();
}

/// A law: a log with one record more is well made exactly where the log is and no rule fails on the record, and each front of a well
/// made log is well made.
pub fn log_laws()
    ensures one_more { OneMore }
    ensures one_less { OneLess }
    ensures fronts { FrontsAreWellMade }
{}
