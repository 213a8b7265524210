ghost use Rattle.scitt_journal.specs.Laws.{OneOfThree, RecordsAreUnique, NoLogHasNoRecords, ShortHasNoRecords, ShortIsUnique, CutIsUnique, RestIsRecovered, DoubtIsOneOf};

use scitt_disk::Disk;

/// What holds of every file: a file of bytes has no log, or one list of records with one rest, or it is short at one
/// gate, behind one list of records, and no two of these.
pub fn journal_laws()
    ensures one_of_three { OneOfThree }
    ensures unique { RecordsAreUnique }
    ensures no_log { NoLogHasNoRecords }
    ensures short { ShortHasNoRecords }
    ensures short_at { ShortIsUnique }
    ensures short_after { CutIsUnique }
{}

/// What a crash leaves of a journal on this kind of disk: at rest its records, and in need of repair those or the ones
/// with the record in doubt.
pub fn crash_laws<D: Disk>()
    ensures at_rest { RestIsRecovered D.held }
    ensures in_doubt { DoubtIsOneOf D.held }
{}
