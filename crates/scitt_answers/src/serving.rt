// The requests of a link, each with its answer.
ghost use Rattle.std.specs.Prelude.{◌≡◌, ℕ, ◌+◌, ◌≤◌, ◌==◌, List, [], Bool, Some, None};
ghost use Rattle.http_wire.specs.Taking.{HasReadCause};
ghost use Rattle.scitt_answers.specs.Routes.{table};
ghost use Rattle.scitt_answers.specs.Exchanges.{state_of};
ghost use Rattle.scitt_answers.specs.Sessions.{Served};
ghost use Rattle.scitt_answers.specs.declared.serving.SessionEnd.TheVariants as end;

use crate::answering::{answer, refuse};
use crate::gate::Gate;
use crate::problem::head_problem;
use crate::replying::Manner;
use crate::routes::{Row, new_router};
use crate::turns::Turns;
use http_wire::{Next, Wire, write_response};
use matchit::Router;
use scitt_io::{Clock, Link};
use std::alloc::Global;

/// How a session ended.
#[derive(Clone, Copy, Debug, PartialEq, Eq)]
pub enum SessionEnd {
    /// The input ended between requests, or the request that was answered asked to close.
    Ended,
    /// The input ended inside a request.
    CutShort,
    /// A head was refused, and the refusal was written. The rest is unread.
    HeadRefused,
    /// 1,000 requests were answered, the last of which didn't ask to close.
    TurnsSpent,
    /// The link refused a read, and its count as a source rose.
    ReadFault,
    /// The link refused a write, and its count as a sink rose. An entry of the last request may stand unanswered.
    WriteFault,
    /// Memory ran out, for the wire or for what an answer may need; nothing more was written.
    OutOfMemory,
}

/// How many bytes the body of a problem has at most.
const PROBLEM_ROOM: usize = 128;

/// The number of the last request of a connection.
const LAST: u32 = 1000;

/// One request, or a head that is refused, and its answer. `None`: the session goes on.
fn exchange<T: Turns, L: Link, C: Clock, G: Gate>(
    alloc: Global,
    router: &Router<Row>,
    wire: &mut Wire,
    turns: &mut T,
    link: &mut L,
    clock: &mut C,
    gate: &mut G,
    number: u32,
) -> Option<SessionEnd>
    requires router { router.now ≡ table }
    requires wire { wire.old.stop ≡ None }
    requires ready { T.ready turns.old }
    ensures served { Served T.tells T.follows number (number + 1) (T.begins turns.old) (T.begins turns.new) (T.last turns.old) (T.last turns.new) wire.old.held wire.new.held
        (L.left link.old) (L.left link.new) (L.taken link.old) (L.taken link.new)
        (state_of C.misses C.readings C.moments clock.old) (state_of C.misses C.readings C.moments clock.new) result }
    ensures ready { T.ready turns.new }
    ensures same { T.same turns.old turns.new }
    ensures goes_on { result ≡ None → wire.new.stop ≡ None }
    ensures reading { HasReadCause (L.faults link.old) (L.faults link.new) (result ≡ Some end.ReadFault) }
    ensures writing { HasReadCause (L.refused link.old) (L.refused link.new) (result ≡ Some end.WriteFault) }
{
    let Ok(room) = Vec::with_capacity(alloc, PROBLEM_ROOM) else {
        return Some(SessionEnd::OutOfMemory);
    };
    let request = match wire.next_request(alloc, link) {
        Next::Request(request) => request,
        Next::Ended => return Some(SessionEnd::Ended),
        Next::CutShort => return Some(SessionEnd::CutShort),
        Next::Refused(fault, of_head) => {
            let manner = Manner {
                close: true,
                head_only: of_head,
            };
            let answer = refuse(room, turns, head_problem(fault), manner);
            return match write_response(link, &answer) {
                Err(_) => Some(SessionEnd::WriteFault),
                Ok(()) => Some(SessionEnd::HeadRefused),
            };
        }
        Next::ReadFault => return Some(SessionEnd::ReadFault),
        Next::OutOfMemory => return Some(SessionEnd::OutOfMemory),
    };
    let close = request.close;
    let answer = answer(
        alloc,
        room,
        router,
        turns,
        clock,
        gate,
        request,
        number == LAST,
    );
    match write_response(link, &answer) {
        Err(_) => Some(SessionEnd::WriteFault),
        Ok(()) if close => Some(SessionEnd::Ended),
        Ok(()) => None,
    }
}

/// Serves the requests of a link by a holder of turns: at most 1,000, and none behind one that asks to close or a head that is refused.
///
/// `Ended` where the input ended between requests, or the request that was answered asked to close. `CutShort` where it ended inside one.
/// `HeadRefused` where a head was refused and the refusal was written. `TurnsSpent` where 1,000 requests were answered. `ReadFault` and
/// `WriteFault` where the link's count as a source, or as a sink, rose. `OutOfMemory` comes before any turn for the request that it meets.
pub fn serve<T: Turns, L: Link, C: Clock, G: Gate>(
    alloc: Global,
    turns: &mut T,
    link: &mut L,
    clock: &mut C,
    gate: &mut G,
) -> SessionEnd
    requires { T.ready turns.old }
    ensures served { (held : List ℕ) × Served T.tells T.follows 1 1001 (T.begins turns.old) (T.begins turns.new) (T.last turns.old) (T.last turns.new) [] held
        (L.left link.old) (L.left link.new) (L.taken link.old) (L.taken link.new)
        (state_of C.misses C.readings C.moments clock.old) (state_of C.misses C.readings C.moments clock.new) (Some result) }
    ensures ready { T.ready turns.new }
    ensures same { T.same turns.old turns.new }
    ensures reading { HasReadCause (L.faults link.old) (L.faults link.new) (result ≡ end.ReadFault) }
    ensures writing { HasReadCause (L.refused link.old) (L.refused link.new) (result ≡ end.WriteFault) }
{
    let Ok(router) = new_router(alloc) else {
        return SessionEnd::OutOfMemory;
    };
    let Ok(mut wire) = Wire::new(alloc) else {
        return SessionEnd::OutOfMemory;
    };
    for number in 1..1001u32 {
        if let Some(end) = exchange(alloc, &router, &mut wire, turns, link, clock, gate, number) {
            return end;
        }
    }
    SessionEnd::TurnsSpent
}
