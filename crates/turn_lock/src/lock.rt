// The lock and its calls.
ghost use Rattle.std.specs.Prelude.{◌≡◌, ◌≢◌, ℕ, ◌+◌, ◌<◌, ◌≤◌, true, false, List, [], ◌∷◌, None, Some, IsOk, IfOk, IfErr};
ghost use Rattle.std.specs.Fn.{FnOnceTakesAtMut, FnOnceReturnsAtMut};
ghost use mathlib.Core.List.{IsPrefix};
ghost use Rattle.turn_lock.specs.Told.{told_list};
ghost use Rattle.turn_lock.specs.Views.{turning, turned};
ghost use Rattle.turn_lock.specs.Seats.{IsAtRest, seen_of};
ghost use Rattle.turn_lock.specs.Turns.{Won};
ghost use Rattle.turn_lock.specs.Calls.{MayWork, Turn, Joined, fresh, lighter};

use crate::grows::Grows;
use crate::seat::CallerSeat;
use crate::turns::{Claim, Halve, Look, Merge, Release, Turns};
use crate::view::View;
use atomic_table::{Badge, Refused, Seat, Table};
use std::alloc::{AllocError, AllocFailed, Global};
use std::marker::Model;
use std::mem;
use std::snapshot::Snapshot;
use std::sync::Wait;

/// Want of memory.
pub type OutOfMemory = AllocError;

// The weight of all seats of a lock.
const WHOLE: u32 = 1024;

// Word 0 where no caller has the turn, and where one has it.
const FREE: u64 = 0;

const TAKEN: u64 = 1;

type Token<T> = Seat<Option<T>, View>;

/// A lock round a value that grows. A clause sees it as which lock it is.
#[derive(Drop)]
pub struct TurnLock<T: Grows> {
    table: Table<Option<T>, View, Snapshot<T>, Turns<T>, Global>,
}

impl<T: Grows> Model for TurnLock<T> {
    ghost use Rattle.std.specs.Prelude.{◌≡◌};
    ghost use Rattle.atomic_table.specs.Seated.{TableId, table_id_coded};

    ghost Value = { TableId };

    ghost coded = { table_id_coded };

    ghost view = { λ l. l.table.shared.table_id };

    ghost invariant = { λ l. (l.table.shared.table_id.words ≡ 1) × (l.table.shared.table_id.slots ≡ 1) };
}

/// Not all seats are there: the lock and the seat come back, with the seat's weight.
#[derive(Drop)]
pub struct SeatsOut<T: Grows> {
    pub lock: TurnLock<T>,
    pub seat: CallerSeat,
    pub weight: u32,
}

impl<T: Grows> TurnLock<T> {
    /// A lock round this value, and the seat that has all its weight, 1,024. The seat has seen the value's list. Without
    /// memory the value comes back.
    pub fn new(alloc: Global, value: T) -> Result<(TurnLock<T>, CallerSeat), (T, OutOfMemory)>
        ensures ok { IfOk result (λ r. r.1 ≡ fresh r.0 1024 (told_list (T.told value))) }
        ensures err { IfErr result (λ r. r.0 ≡ value) }
    {
        let key = Snapshot::of(&value);
        let _length = value.len();
        let mut slots = Vec::new(alloc);
        if let Err(failed) = slots.push(Some(value)) {
            let AllocFailed { value } = failed;
            let Some(value) = value else { unreachable!() };
            slots.destroy_empty();
            return Err((value, AllocError));
        }
        match Table::new(alloc, &[0], slots, &key) {
            Ok((table, seat)) => Ok((TurnLock { table }, seat_of(seat.into_badge(), WHOLE))),
            Err(Refused { mut slots }) => {
                let Some(Some(value)) = slots.pop() else {
                    unreachable!()
                };
                slots.destroy_empty();
                Err((value, AllocError))
            }
        }
    }

    /// A seat of weight 1, split off this one, which loses 1. It has seen the same. Condition: the seat is this lock's, and
    /// its weight is at least 2. It takes no memory, so no answer is an `Err`.
    pub fn split(&self, seat: &mut CallerSeat) -> Result<CallerSeat, OutOfMemory>
        requires lock { seat.old.lock ≡ self.now }
        requires weight { 2 ≤ seat.old.weight }
        ensures made { IsOk result }
        ensures ok { IfOk result (λ r. (r ≡ fresh self.now 1 seat.old.seen) × (seat.new ≡ lighter seat.old)) }
    {
        let mut token: Token<T> = mem::replace(&mut seat.badge, Badge::blank()).into_seat();
        let other = self.table.shared.split_seat::<Halve>(&mut token);
        seat.badge = token.into_badge();
        seat.weight -= 1;
        Ok(seat_of(other.into_badge(), 1))
    }

    /// Gives the other seat up to this one. The weights add up. One of the two seen lists begins the other, which the seat
    /// has then seen. Condition: both seats are this lock's.
    pub fn join(&self, seat: &mut CallerSeat, other: CallerSeat)
        requires lock { (seat.old.lock ≡ self.now) × (other.lock ≡ self.now) }
        ensures { Joined seat.old other seat.new }
    {
        let CallerSeat {
            badge,
            weight,
            length_found: _,
            marks_found: _,
            marks_left: _,
        } = other;
        let mut token: Token<T> = mem::replace(&mut seat.badge, Badge::blank()).into_seat();
        self.table
            .shared
            .join_seat::<Merge>(&mut token, badge.into_seat());
        self.table.shared.load::<Look<T>>(&mut token, 0);
        *seat = seat_of(token.into_badge(), seat.weight + weight);
    }

    /// Does this work on the value, while no other caller has it. It waits for its turn.
    ///
    /// The seat's found list is then that of the value which the work was given, and the list that the seat had seen begins
    /// it. The seat has seen the list that the work left. Its marks found and left are the value's before and after the
    /// work. The answer is the work's. Condition: the seat is this lock's, and the work may be done on every value whose
    /// list the seen list begins, leaves a list that the old one begins, and tells its list where it was told before.
    pub fn with<R, W: FnOnce(&mut T) -> R>(
        &self,
        rt: &impl Wait,
        seat: &mut CallerSeat,
        work: W,
    ) -> R
        requires lock { seat.old.lock ≡ self.now }
        requires work { MayWork T.told T.marked W.FnOnce work seat.old.seen }
        ensures { Turn T.told T.marked W.FnOnce work seat.old result seat.new }
    {
        let mut token: Token<T> = mem::replace(&mut seat.badge, Badge::blank()).into_seat();
        let mut value = self.take_out(rt, &mut token);
        seat.length_found = value.len();
        seat.marks_found = value.marks();
        let result = run(&mut value, work);
        let _length = value.len();
        seat.marks_left = value.marks();
        self.put_back(&mut token, value);
        seat.badge = token.into_badge();
        result
    }

    /// The value, where this seat has all the weight; what the seat has seen begins its list. `SeatsOut` where and only
    /// where the weight isn't 1,024: the lock and the seat come back. It waits for nobody. Condition: the seat is this lock's.
    pub fn close(self, seat: CallerSeat) -> Result<T, SeatsOut<T>>
        requires lock { seat.lock ≡ self }
        ensures ok { IfOk result (λ x. IsPrefix seat.seen (told_list (T.told x)) × (seat.weight ≡ 1024)) }
        ensures err { IfErr result (λ out. (out.lock ≡ self) × (out.seat ≡ seat) × (out.weight ≡ seat.weight) × (seat.weight ≢ 1024)) }
    {
        let weight = seat.weight();
        if weight != WHOLE {
            return Err(SeatsOut {
                lock: self,
                seat,
                weight,
            });
        }
        let CallerSeat {
            badge,
            weight: _,
            length_found: _,
            marks_found: _,
            marks_left: _,
        } = seat;
        let TurnLock { table } = self;
        let mut closed = table.close_with(badge.into_seat());
        let Some(value) = closed.take(0) else {
            unreachable!()
        };
        closed.free();
        Ok(value)
    }

    // Wins the turn. A caller that lost a claim sleeps until a turn is given up.
    fn claim(&self, rt: &impl Wait, token: &mut Token<T>)
        requires lock { token.old.table_id ≡ self.now }
        requires rests { (token.old.me.1 ≡ []) × (0 < token.old.me.0.weight) }
        ensures lock { token.new.table_id ≡ token.old.table_id }
        ensures won { Won (λ x. told_list (T.told x)) token.old.me.0 token.new.me }
    {
        let table = &self.table.shared;
        for _ in rt.forever() {
            let found = table.compare_exchange::<Claim<T>>(token, 0, FREE, TAKEN);
            if found == FREE {
                return;
            }
            table.park(rt, 0, TAKEN as u32);
        }
        unreachable!()
    }

    // Wins the turn and takes the value out.
    fn take_out(&self, rt: &impl Wait, token: &mut Token<T>) -> T
        requires lock { token.old.table_id ≡ self.now }
        requires rests { (token.old.me.1 ≡ []) × (0 < token.old.me.0.weight) }
        ensures lock { token.new.table_id ≡ token.old.table_id }
        ensures begins { IsPrefix token.old.me.0.seen (told_list (T.told result)) }
        ensures out { token.new.me ≡ (turning token.old.me.0 (told_list (T.told result)), (0, None) ∷ []) }
    {
        self.claim(rt, token);
        let out = self.table.shared.exchange(token, 0, None);
        let Some(value) = out else { unreachable!() };
        value
    }

    // Puts the value back, gives the turn up and wakes one caller that sleeps.
    fn put_back(&self, token: &mut Token<T>, value: T)
        requires lock { token.old.table_id ≡ self.now }
        requires slot { token.old.me.1 ≡ (0, None) ∷ [] }
        requires turn { (token.old.me.0.turn ≡ true) × IsPrefix token.old.me.0.found (told_list (T.told value)) }
        ensures lock { token.new.table_id ≡ token.old.table_id }
        ensures rests { token.new.me ≡ (turned token.old.me.0 (told_list (T.told value)), []) }
    {
        let empty = self.table.shared.exchange(token, 0, Some(value));
        let None = empty else { unreachable!() };
        self.table.shared.store::<Release<T>>(token, 0, FREE);
        self.table.shared.wake_one(0);
    }
}

fn run<T, R, W: FnOnce(&mut T) -> R>(value: &mut T, work: W) -> R
    requires { FnOnceTakesAtMut W.FnOnce work value.old }
    ensures { FnOnceReturnsAtMut W.FnOnce work value.old result value.new }
{
    work(value)
}

// A seat that hasn't taken a turn yet.
fn seat_of(badge: Badge<View>, weight: u32) -> CallerSeat
    requires { IsAtRest badge.views weight }
    ensures { result ≡ fresh badge.table_id weight (seen_of badge.views) }
{
    CallerSeat {
        badge,
        weight,
        length_found: u64::MAX,
        marks_found: [0, 0],
        marks_left: [0, 0],
    }
}
