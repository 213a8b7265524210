// From a request to its answer.
ghost use Rattle.std.specs.Prelude.{◌≡◌, ℕ, ◌≤◌, List, [], IfOk, option_map, vec_capacity};
ghost use Rattle.http.specs.StatusCode.{IsStatusCode};
ghost use Rattle.statement.specs.Parsed.{StatementOf};
ghost use Rattle.scitt_answers.specs.Routes.{table};
ghost use Rattle.scitt_answers.specs.Answers.{problem_answer as of_problem};
ghost use Rattle.scitt_answers.specs.Asking.{call_of};
ghost use Rattle.scitt_answers.specs.Marks.{TurnedTo, looks};
ghost use Rattle.scitt_answers.specs.Exchanges.{Asked, request as asks_for, ClockState, state_of, Reads, exchange_of, Tells, AnswersBody, Answers};
ghost use Rattle.scitt_answers.specs.Sessions.{Answered};

use crate::asking::{Ask, Reading, ask_of, manner_of};
use crate::gate::Gate;
use crate::problem::Problem;
use crate::replying::{Manner, made_answer, problem_answer, read_answer, registered_answer};
use crate::routes::Row;
use crate::statements::parse_problem;
use crate::turns::Turns;
use hss_keys::Key60;
use http_wire::{Answer, Request};
use log_replay::{Checked, check};
use matchit::Router;
use scitt_io::Clock;
use statement::{Statement, parse};
use std::alloc::{AllocError, Global};

/// A problem, by a turn for the size.
pub(crate) fn refuse<T: Turns>(
    room: Vec<u8>,
    turns: &mut T,
    problem: Problem,
    manner: Manner,
) -> Answer
    requires empty { room.items ≡ [] }
    requires room { 128 ≤ vec_capacity room }
    requires ready { T.ready turns.old }
    ensures turned { TurnedTo T.tells (T.begins turns.old) (T.last turns.new) looks result.size }
    ensures answer { result ≡ of_problem problem result.size manner }
    ensures status { IsStatusCode result.status }
    ensures ready { T.ready turns.new }
    ensures same { T.same turns.old turns.new }
{
    let size = turns.size();
    problem_answer(room, problem, size, manner)
}

/// What is read of the log, by one turn.
fn read<T: Turns>(
    alloc: Global,
    room: Vec<u8>,
    turns: &mut T,
    reading: Reading,
    manner: Manner,
) -> Answer
    requires empty { room.items ≡ [] }
    requires room { 128 ≤ vec_capacity room }
    requires ready { T.ready turns.old }
    ensures answered { (asked : Asked) (clock : ClockState) → Answered T.tells T.follows (T.begins turns.old) (T.last turns.new) result.size
        (λ steps. Tells (call_of reading) manner (exchange_of asked clock clock steps result)) }
    ensures status { IsStatusCode result.status }
    ensures ready { T.ready turns.new }
    ensures same { T.same turns.old turns.new }
{
    match reading {
        Reading::Receipt(index) => {
            let (bytes, size) = turns.receipt(alloc, index);
            read_answer(room, bytes, size, manner)
        }
        Reading::Statement(index) => {
            let (bytes, size) = turns.statement(alloc, index);
            read_answer(room, bytes, size, manner)
        }
        Reading::Consistency(old) => {
            let (bytes, size) = turns.consistency(alloc, old);
            read_answer(room, bytes, size, manner)
        }
        Reading::Keys => {
            let (bytes, size) = turns.keys(alloc);
            made_answer(room, bytes, size, manner)
        }
        Reading::Policy => {
            let (bytes, size) = turns.policy();
            made_answer(room, bytes, size, manner)
        }
    }
}

/// Checks a statement between the two calls of the gate.
fn check_between<G: Gate>(
    alloc: Global,
    gate: &mut G,
    statement: Statement,
    key: Option<Key60>,
) -> Result<Checked, (Statement, AllocError)>
    ensures statement { IfOk result (λ checked. checked.statement ≡ statement) }
    ensures pair { IfOk result (λ checked. option_map (λ p. p.0) checked.pair ≡ key) }
{
    gate.before_check();
    let checked = check(alloc, statement, key);
    gate.after_check();
    checked
}

/// A registration at a moment, by two turns: one names the key, by which the statement is checked between the two.
fn register<T: Turns, G: Gate>(
    alloc: Global,
    room: Vec<u8>,
    turns: &mut T,
    gate: &mut G,
    statement: Statement,
    moment: u64,
    manner: Manner,
) -> Answer
    requires empty { room.items ≡ [] }
    requires room { 128 ≤ vec_capacity room }
    requires ready { T.ready turns.old }
    ensures answered { (body : List ℕ) (asked : Asked) (before after : ClockState) → StatementOf body statement → Reads before after moment
        → Answered T.tells T.follows (T.begins turns.old) (T.last turns.new) result.size
        (λ steps. AnswersBody body manner (exchange_of asked before after steps result)) }
    ensures status { IsStatusCode result.status }
    ensures ready { T.ready turns.new }
    ensures same { T.same turns.old turns.new }
{
    let key = turns.key_hint(&statement);
    match check_between(alloc, gate, statement, key) {
        Ok(checked) => {
            let (outcome, size) = turns.register(alloc, &checked, moment);
            registered_answer(room, outcome, size, manner)
        }
        Err(_) => refuse(room, turns, Problem::OutOfMemory, manner),
    }
}

/// A registration at the moment that the clock gives.
fn register_now<T: Turns, C: Clock, G: Gate>(
    alloc: Global,
    room: Vec<u8>,
    turns: &mut T,
    clock: &mut C,
    gate: &mut G,
    statement: Statement,
    manner: Manner,
) -> Answer
    requires empty { room.items ≡ [] }
    requires room { 128 ≤ vec_capacity room }
    requires ready { T.ready turns.old }
    ensures answered { (body : List ℕ) (asked : Asked) → StatementOf body statement
        → Answered T.tells T.follows (T.begins turns.old) (T.last turns.new) result.size
        (λ steps. AnswersBody body manner (exchange_of asked (state_of C.misses C.readings C.moments clock.old) (state_of C.misses C.readings C.moments clock.new) steps result)) }
    ensures status { IsStatusCode result.status }
    ensures ready { T.ready turns.new }
    ensures same { T.same turns.old turns.new }
{
    match clock.now() {
        Ok(moment) => register(alloc, room, turns, gate, statement, moment, manner),
        Err(_) => refuse(room, turns, Problem::ClockFault, manner),
    }
}

/// The answer to a body that is to be registered.
fn take<T: Turns, C: Clock, G: Gate>(
    alloc: Global,
    room: Vec<u8>,
    turns: &mut T,
    clock: &mut C,
    gate: &mut G,
    body: &[u8],
    manner: Manner,
) -> Answer
    requires empty { room.items ≡ [] }
    requires room { 128 ≤ vec_capacity room }
    requires ready { T.ready turns.old }
    ensures answered { (asked : Asked) → Answered T.tells T.follows (T.begins turns.old) (T.last turns.new) result.size
        (λ steps. AnswersBody body.now manner (exchange_of asked (state_of C.misses C.readings C.moments clock.old) (state_of C.misses C.readings C.moments clock.new) steps result)) }
    ensures status { IsStatusCode result.status }
    ensures ready { T.ready turns.new }
    ensures same { T.same turns.old turns.new }
{
    match parse(alloc, body) {
        Ok(statement) => register_now(alloc, room, turns, clock, gate, statement, manner),
        Err(stop) => refuse(room, turns, parse_problem(&stop), manner),
    }
}

/// The answer to a request, by one turn, or by two where a statement is registered. The room is for the body of a problem, so that
/// no answer takes memory after its turns. The clock is asked once for a registration whose body is a statement, and else not.
pub(crate) fn answer<T: Turns, C: Clock, G: Gate>(
    alloc: Global,
    room: Vec<u8>,
    router: &Router<Row>,
    turns: &mut T,
    clock: &mut C,
    gate: &mut G,
    request: Request,
    is_last: bool,
) -> Answer
    requires empty { room.items ≡ [] }
    requires room { 128 ≤ vec_capacity room }
    requires router { router.now ≡ table }
    requires ready { T.ready turns.old }
    ensures answered { Answered T.tells T.follows (T.begins turns.old) (T.last turns.new) result.size
        (λ steps. Answers is_last (exchange_of (asks_for request) (state_of C.misses C.readings C.moments clock.old) (state_of C.misses C.readings C.moments clock.new) steps result) (asks_for request)) }
    ensures status { IsStatusCode result.status }
    ensures ready { T.ready turns.new }
    ensures same { T.same turns.old turns.new }
{
    let manner = manner_of(is_last, &request);
    match ask_of(router, &request) {
        Ask::Refuse(problem) => refuse(room, turns, problem, manner),
        Ask::Read(reading) => read(alloc, room, turns, reading, manner),
        Ask::Register => take(
            alloc,
            room,
            turns,
            clock,
            gate,
            request.body.as_slice(),
            manner,
        ),
    }
}
