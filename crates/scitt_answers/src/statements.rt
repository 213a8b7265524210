// The problem of a body that is no statement.
ghost use Rattle.std.specs.Prelude.{◌≡◌};
ghost use Rattle.scitt_answers.specs.Statements.{sign1_problem as problem_of_message, parse_problem as problem_of_statement};

use crate::problem::Problem;
use cose_sign1::Sign1Stop;
use statement::ParseStop;

fn bad_statement(number: u8, place: u64) -> Problem
    ensures { result ≡ Problem.BadStatement number place }
{
    Problem::BadStatement { number, place }
}

fn sign1_problem(stop: &Sign1Stop) -> Problem
    ensures { result ≡ problem_of_message stop.now }
{
    match stop {
        Sign1Stop::Cbor(fault) => bad_statement(1, fault.at),
        Sign1Stop::Protected(fault) => bad_statement(2, fault.at),
        Sign1Stop::NotSign1 => bad_statement(3, 0),
        Sign1Stop::BadHeader(_) => bad_statement(4, 0),
        Sign1Stop::DupLabel(_) => bad_statement(5, 0),
        Sign1Stop::BadCrit => bad_statement(6, 0),
        Sign1Stop::OutOfMemory => Problem::OutOfMemory,
    }
}

/// What is wrong with a body that is no statement, by the first rule that it breaks.
pub(crate) fn parse_problem(stop: &ParseStop) -> Problem
    ensures { result ≡ problem_of_statement stop.now }
{
    match stop {
        ParseStop::Sign1(why) => sign1_problem(why),
        ParseStop::Detached => bad_statement(7, 0),
        ParseStop::NoClaims => bad_statement(8, 0),
        ParseStop::NoIssuer => bad_statement(9, 0),
        ParseStop::NoSubject => bad_statement(10, 0),
        ParseStop::NoKid => bad_statement(11, 0),
        ParseStop::BadClaim(_) => bad_statement(12, 0),
        ParseStop::TooLarge => bad_statement(13, 0),
        ParseStop::OutOfMemory => Problem::OutOfMemory,
    }
}
