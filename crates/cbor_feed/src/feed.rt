ghost use Rattle.std.specs.Prelude.{◌≡◌, ◌≢◌, [], None, IfSome};
ghost use Rattle.cbor_feed.specs.Feeding.{Answers, Finishes};
ghost use Rattle.cbor_feed.specs.Keeping.{said};

use crate::frames::Frame;
use crate::walk::{Walked, place, walk};
use crate::words::Fed;
use cbor_core::{DecodeStop, Fault, Grammar, Item, Why};
use std::alloc::{AllocError, Global};
use std::marker::Model;

// What ended a feed.
#[derive(Drop)]
enum Ended {
    Whole(Item),
    Failed(Fault),
    Exhausted,
}

/// A reader of one CBOR item whose bytes come in pieces (RFC 8949, 3).
///
/// A piece is read on from where the one before ended: of earlier bytes only a head that was cut, the head of a string that was cut and a
/// map's keys are looked at again. It keeps the bytes of the item beside what it has read of it. Contracts see its grammar, the bytes that
/// it was fed, up to the item's end, and the answer that it repeats, once there is one.
#[derive(Drop)]
pub struct Feed {
    alloc: Global,
    grammar: Grammar,
    held: Vec<u8>,
    frames: Vec<Frame>,
    ended: Option<Ended>,
}

impl Model for Feed {
    ghost use Rattle.std.specs.Option.{option_map};
    ghost use Rattle.cbor_feed.specs.Feeding.{Feeding};
    ghost use Rattle.cbor_feed.specs.Keeping.{said, Keeps};

    ghost Value = { Feeding };

    ghost view = { λ f. record {
      grammar = f.grammar;
      fed = f.held.items;
      last = option_map said f.ended;
    } };

    ghost invariant = { λ f. Keeps f.grammar f.held.items f.frames.items f.ended };
}

fn repeated(ended: &Ended) -> Fed
    ensures { result ≡ said ended.now }
{
    match ended {
        Ended::Whole(_) => Fed::Done(0),
        Ended::Failed(fault) => Fed::Fault(*fault),
        Ended::Exhausted => Fed::OutOfMemory,
    }
}

impl Feed {
    /// A reader of one item, that has no bytes yet.
    pub fn new(alloc: Global, grammar: Grammar) -> Feed
        ensures { result ≡ record { grammar = grammar; fed = []; last = None } }
    {
        Feed {
            alloc,
            grammar,
            held: Vec::new(alloc),
            frames: Vec::new(alloc),
            ended: None,
        }
    }

    /// Takes the next piece.
    ///
    /// `NeedMore` comes exactly where the bytes of all pieces so far end too early, `Fault` exactly where they have another fault, with
    /// the place that it has among them, and `Done` exactly where an item is whole, which ends in this piece, with how many bytes of this
    /// piece it has. `OutOfMemory` is the want of memory alone. Each push behind one that was answered otherwise than by `NeedMore` is
    /// answered the same, with no bytes used.
    pub fn push(&mut self, piece: &[u8]) -> Fed
        ensures answer { self.old.last ≡ None → Answers self.old piece.now result self.new }
        ensures again { IfSome self.old.last (λ last. (result ≡ last) × (self.new ≡ self.old)) }
    {
        if let Some(ended) = &self.ended {
            return repeated(ended);
        }
        let before = self.held.len();
        if self.held.extend_from_slice(piece).is_err() {
            self.ended = Some(Ended::Exhausted);
            return Fed::OutOfMemory;
        }
        match walk(
            self.alloc,
            self.grammar,
            &mut self.frames,
            self.held.as_slice(),
        ) {
            Ok(Walked::Cut) => Fed::NeedMore,
            Ok(Walked::Whole(item, end)) => {
                self.held.truncate(end);
                self.ended = Some(Ended::Whole(item));
                Fed::Done(end.saturating_sub(before))
            }
            Ok(Walked::Stuck(fault)) => {
                self.ended = Some(Ended::Failed(fault));
                Fed::Fault(fault)
            }
            Err(AllocError) => {
                self.ended = Some(Ended::Exhausted);
                Fed::OutOfMemory
            }
        }
    }

    /// The item, where a push was answered by `Done`; the fault or the want of memory, where one was answered by that; else the fault
    /// `Truncated` of the bytes so far, with its place.
    pub fn finish(self) -> Result<Item, DecodeStop>
        ensures { Finishes self result }
    {
        let Feed { frames, ended, .. } = self;
        match ended {
            None => Err(DecodeStop::Fault(Fault {
                at: place(frames.as_slice()) as u64,
                why: Why::Truncated,
            })),
            Some(Ended::Whole(item)) => Ok(item),
            Some(Ended::Failed(fault)) => Err(DecodeStop::Fault(fault)),
            Some(Ended::Exhausted) => Err(DecodeStop::OutOfMemory),
        }
    }
}
