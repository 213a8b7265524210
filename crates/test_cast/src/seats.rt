// Registrations by a seat at a service.
ghost use Rattle.std.specs.Prelude.{◌≡◌};

use cbor_core::Bytes;
use log_replay::check;
use registrar::Outcome;
use scitt_disk::Disk;
use scitt_service::Service;
use statement::parse;
use std::alloc::Global;
use std::sync::Wait;
use turn_lock::CallerSeat;

/// Registers a statement by a seat: its index, and whether it was admitted just now. Its receipt is read again by that index, and is
/// the same; else there is no answer.
pub fn registers<D: Disk>(
    rt: &impl Wait,
    alloc: Global,
    service: &Service<D>,
    seat: &mut CallerSeat,
    bytes: &Bytes,
    moment: u64,
) -> Option<(u32, bool)>
    requires { seat.old.lock ≡ service.now }
    ensures lock { seat.new.lock ≡ service.now }
    ensures weight { seat.new.weight ≡ seat.old.weight }
{
    if bytes.len() > 16_777_216 {
        return None;
    }
    let Ok(statement) = parse(alloc, bytes.as_slice()) else {
        return None;
    };
    let key = service.key_hint(rt, seat, &statement);
    let Ok(checked) = check(alloc, statement, key) else {
        return None;
    };
    let (outcome, _) = service.register(rt, alloc, seat, &checked, moment);
    let (index, receipt, admitted) = match outcome {
        Outcome::Admitted { index, receipt } => (index, receipt, true),
        Outcome::Known { index, receipt } => (index, receipt, false),
        _ => return None,
    };
    let (Ok(again), _) = service.receipt(rt, alloc, seat, index) else {
        return None;
    };
    if receipt.as_slice() != again.as_slice() {
        return None;
    }
    Some((index, admitted))
}
