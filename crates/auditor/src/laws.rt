// Laws of reports.

ghost use Rattle.auditor.specs.Laws.{SomeReport, OneReport, SomeSince, OneSince};

use log_replay::log_laws;
use scitt_journal::journal_laws;

/// A law: bytes have a report, and no other; and beside an older size and root they have an answer, and no other.
pub fn report_laws()
    ensures some { SomeReport }
    ensures one { OneReport }
    ensures some_since { SomeSince }
    ensures one_since { OneSince }
{
    journal_laws();
    log_laws();
}
