// Laws of sessions.
ghost use Rattle.scitt_answers.specs.Laws.{SizesAlone, SizesAmongOthers, SizeAtExit, LogsBeginExit, LogsBeginSeen, FaultsNeverFall};
ghost use Rattle.scitt_answers.specs.Judged.{AnswersAreJudged, GoodIsTaken};

use statement::statements_have_one_answer;

/// Laws: alone, the turns of each answer find as many entries as the answer before printed, and the log at exit has as many as the last
/// answer printed; among others, at least so many. The logs that turns found begin the log at exit. The answer to a registration is that
/// of the judgement of the log that its turn found, or has a cause of its own; a statement that the judgement admits, with room and an
/// index left, is taken where neither the clock's count nor the disk's rose, unless memory is wanting. The disk's count never falls.
pub fn session_laws()
    ensures alone { SizesAlone }
    ensures among_others { SizesAmongOthers }
    ensures at_exit { SizeAtExit }
    ensures begin { LogsBeginExit }
    ensures begin_seen { LogsBeginSeen }
    ensures judged { AnswersAreJudged }
    ensures taken { GoodIsTaken }
    ensures faults { FaultsNeverFall }
{
    statements_have_one_answer();
}
