// The reader of a log's records.
ghost use Rattle.std.specs.Prelude.{◌≡◌, ℕ, ◌≤◌, ◌↔◌, [], List, length, None, Some, IfSome, is_some};
ghost use Rattle.auditor.specs.Streams.{Takes, HasReadCause, records_with, last_of, kept_by};

use crate::answers::{Ended, Read};
use crate::given::{Given, given_with, none_given};
use crate::stepping::{Whole, read_on};
use scitt_io::Source;
use std::alloc::Global;
use std::marker::Model;
use std::mem;
use std::snapshot::Snapshot;

/// Reads the records of a log, one after another, and keeps none of them.
///
/// What it has to come is the bytes that it keeps, followed by what the source has left. Contracts see besides which records it gave, and
/// the answer that it repeats.
#[derive(Drop)]
pub struct LogReader {
    alloc: Global,
    limit: u64,
    place: u64,
    gate: Option<u8>,
    ended: Option<Ended>,
    given: Snapshot<Given>,
}

impl Model for LogReader {
    ghost use Rattle.std.specs.Option.{option_map};
    ghost use Rattle.auditor.specs.Streams.{Progress};
    ghost use Rattle.auditor.specs.Fetches.{gate_bytes, read_of};
    ghost use Rattle.auditor.specs.Given.{given_of};
    ghost use Rattle.auditor.specs.Keeping.{KeepsPlace};

    ghost Value = { Progress };

    ghost view = { λ r. record {
      limit = r.limit;
      records = given_of r.given.value;
      held = gate_bytes r.gate;
      last = option_map read_of r.ended;
    } };

    ghost invariant = { λ r. KeepsPlace r.limit r.place r.gate r.ended (given_of r.given.value) };
}

impl LogReader {
    /// A reader that takes at most `limit` bytes, and one past them where there are more.
    pub fn new(alloc: Global, limit: u64) -> LogReader
        ensures { result ≡ record { limit = limit; records = []; held = []; last = None } }
    {
        LogReader {
            alloc,
            limit,
            place: 0,
            gate: None,
            ended: None,
            given: none_given(),
        }
    }

    /// How many bytes were taken and are still kept.
    pub fn held(&self) -> u64
        ensures { result ≡ length self.now.held }
    {
        match self.gate {
            None => 0,
            Some(_) => 1,
        }
    }

    /// The next record, or why there is none.
    ///
    /// `Record` comes exactly where the next gate to come is open and its record whole, with a gate behind it: then that gate is kept, and
    /// nothing else. `End` comes where the gate behind the last record isn't open, `NoLog` where the source has fewer than six bytes or the
    /// first isn't 1, `Short` where a record passes the end; these three read the source to its end. `TooLong` comes exactly where one byte
    /// past the limit was taken, `ReadFault` only where the source's count of faults rose. After all but a record nothing is kept, and each
    /// later call answers the same and reads nothing.
    pub fn next<S: Source>(&mut self, source: &mut S) -> Read
        ensures takes { self.old.last ≡ None → Takes self.old (S.left source.old) (S.left source.new) result self.new.held }
        ensures again { IfSome self.old.last (λ last. (result ≡ last) × (self.new ≡ self.old) × (source.new ≡ source.old)) }
        ensures records { self.new.records ≡ records_with self.old.records result }
        ensures last { self.new.last ≡ last_of result }
        ensures held { length self.new.held ≡ kept_by result }
        ensures limit { self.new.limit ≡ self.old.limit }
        ensures telling { is_some (S.left source.new) ≡ is_some (S.left source.old) }
        ensures cause { self.old.last ≡ None → HasReadCause (S.faults source.old) (S.faults source.new) (result ≡ Read.ReadFault) }
        ensures keeps { S.read_keeps source.old source.new }
    {
        if let Some(ended) = self.ended {
            return ended.answer();
        }
        match read_on(self.alloc, source, self.limit, self.place, self.gate) {
            Ok(whole) => {
                let Whole { body, gate } = whole;
                self.place += body.len() as u64 + 5;
                self.gate = Some(gate);
                let before = mem::replace(&mut self.given, none_given());
                self.given = given_with(before, &body);
                Read::Record(body)
            }
            Err(ended) => {
                self.gate = None;
                self.ended = Some(ended);
                ended.answer()
            }
        }
    }
}
