// The walk over the records of a file's bytes.
ghost use Rattle.std.specs.Prelude.{◌≡◌, ℕ, ◌+◌, ◌<◌, ◌≤◌, ◌^◌, ◌∷◌, ◌++◌, [], List, length, slice_index, IfOk, OnOk, None};
ghost use Rattle.log_replay.specs.Records.{Log};
ghost use Rattle.auditor.specs.Walks.{Knows, Judged, IsFound};

use crate::record::split_record;
use log_replay::{Failing, State};
use std::alloc::{AllocError, Global};

/// An open gate.
const OPEN: u8 = 1;

/// The first record that fails a rule, and the rule.
#[derive(Clone, Copy)]
pub(crate) struct BadRecord {
    pub number: u64,
    pub failing: Failing,
}

/// How many records were walked over, and either the first bad one, or the state of them all.
#[derive(Drop)]
pub(crate) struct Walk {
    pub state: State,
    pub number: u64,
    pub bad: Option<BadRecord>,
}

/// How a file ends.
#[derive(Clone, Copy)]
pub(crate) enum End {
    /// It has no log.
    NoLog,
    /// A gate that isn't open, and so many bytes after it.
    Shut(u64),
    /// At this offset an open gate with a record that passes the end.
    Cut(u64),
}

/// What was found in a file.
#[derive(Drop)]
pub(crate) struct Found {
    pub walk: Walk,
    pub end: End,
}

impl Walk {
    /// No record.
    pub(crate) fn new(alloc: Global) -> Walk
        ensures { Knows result [] }
    {
        Walk {
            state: State::new(alloc),
            number: 0,
            bad: None,
        }
    }

    // Judges the next record.
    fn judge_next(&mut self, body: &[u8]) -> Result<(), AllocError>
        requires { self.old.bad ≡ None }
        ensures number { self.new.number ≡ self.old.number }
        ensures judged { OnOk result ((R : Log) → Knows self.old R → Judged self.new.state self.new.bad (R ++ body.now ∷ [])) }
    {
        match self.state.take_record(body)? {
            None => Ok(()),
            Some(failing) => {
                self.bad = Some(BadRecord {
                    number: self.number,
                    failing,
                });
                Ok(())
            }
        }
    }

    // Judges the next record, where none before it is bad.
    fn judge(&mut self, body: &[u8]) -> Result<(), AllocError>
        ensures number { self.new.number ≡ self.old.number }
        ensures judged { OnOk result ((R : Log) → Knows self.old R → Judged self.new.state self.new.bad (R ++ body.now ∷ [])) }
    {
        match self.bad {
            Some(_) => Ok(()),
            None => self.judge_next(body),
        }
    }

    /// One record more.
    pub(crate) fn take(&mut self, body: &[u8]) -> Result<(), AllocError>
        requires { self.old.number < 2 ^ 63 }
        ensures { OnOk result ((R : Log) → Knows self.old R → Knows self.new (R ++ body.now ∷ [])) }
    {
        self.judge(body)?;
        self.number += 1;
        Ok(())
    }
}

// The walk from the first gate, which is open.
fn walk_over(alloc: Global, bytes: &[u8]) -> Result<Found, AllocError>
    requires six { 6 ≤ length bytes.now }
    requires opened { slice_index bytes.now 0 ≡ 1 }
    ensures { IfOk result (IsFound bytes.now) }
{
    let mut walk = Walk::new(alloc);
    let mut rest = bytes;
    'records: while rest[0] == OPEN {
        let (_, tail) = rest.split_at(1);
        let Some((body, behind)) = split_record(tail) else {
            let at = bytes.len() - rest.len();
            return Ok(Found {
                walk,
                end: End::Cut(at as u64),
            });
        };
        walk.take(body)?;
        rest = behind;
    }
    let left = rest.len() - 1;
    Ok(Found {
        walk,
        end: End::Shut(left as u64),
    })
}

/// What a file's bytes hold.
pub(crate) fn find(alloc: Global, bytes: &[u8]) -> Result<Found, AllocError>
    ensures { IfOk result (IsFound bytes.now) }
{
    if bytes.len() < 6 || bytes[0] != OPEN {
        return Ok(Found {
            walk: Walk::new(alloc),
            end: End::NoLog,
        });
    }
    walk_over(alloc, bytes)
}
