// Laws of what is written into a log, and of what a log holds as it grows.

ghost use Rattle.log_replay.specs.Growth.{AdmissibleFits, ReserveFits, HeaderFits, ReserveRises, IndexRises, EntryIsNew, HeaderStays, HeaderIsFirst, EntriesAreLeaves, FewRecords, IsBounded, NoIdTwice, FewerRecords, HeaderIsWithin, EntryHasHome, BatchesAreEntries, ReserveAdds, BatchAdds};
ghost use Rattle.log_replay.specs.Answers.{EntryHasBatch, LastHasBatch, ReceiptIsOfBatch, ConsistencyIsOfLast};

use hss_keys::levels_law;

/// A law: what the service writes fails no rule. A Batch of an admissible entry, the next reservation, and a header within the
/// limits as the first record.
pub fn fitting_laws()
    ensures batch { AdmissibleFits }
    ensures reserve { ReserveFits }
    ensures header { HeaderFits }
{}

/// A law: what a record that fails no rule says. A reservation rises as it may; an index is reserved, and above those used; a
/// Batch has one entry, which the judgement admits by its rule, so it is no statement of the log.
pub fn record_laws()
    ensures reserve { ReserveRises }
    ensures index { IndexRises }
    ensures entry { EntryIsNew }
{}

/// A law: a header stays, and a well made log that has a record has one that holds. A well made log has an entry for each byte string
/// of its Batches, as many records as its reservation and its entries allow, keeps its bounds, and has no two entries with one
/// statement id.
pub fn growth_laws()
    ensures header { HeaderStays }
    ensures first { HeaderIsFirst }
    ensures leaves { EntriesAreLeaves }
    ensures few { FewRecords }
    ensures bounds { IsBounded }
    ensures ids { NoIdTwice }
{}

/// A law: what a log says with a Reserve more, and with a Batch of one entry more.
pub fn more_laws()
    ensures reserve { ReserveAdds }
    ensures batch { BatchAdds }
{}

/// A law: in a well made log the header keeps its limits, and there are fewer than 2,147,483,648 records.
pub fn limit_laws()
    ensures header { HeaderIsWithin }
    ensures fewer { FewerRecords }
{
    levels_law();
}

/// A law: in a well made log each entry stands in a record that is a Batch of it alone, for the size up to and with it, and the parts of
/// its bytes are the entry's. There are as many Batches as entries.
pub fn home_laws()
    ensures home { EntryHasHome }
    ensures count { BatchesAreEntries }
{}

/// A law: the Batch that the receipt of entry i names is Batch i, which holds the entry, and the last one, which a consistency receipt
/// names, is that of the last entry.
pub fn answer_laws()
    ensures entry { EntryHasBatch }
    ensures last { LastHasBatch }
    ensures receipt { ReceiptIsOfBatch }
    ensures consistency { ConsistencyIsOfLast }
{}
