ghost use Rattle.statement.specs.Statements.{Opened};
ghost use Rattle.statement.specs.Parsed.{Parsed};

use crate::assembling::assemble;
use crate::claims::names_of;
use crate::logged::logged_form;
use crate::receipts::receipts_of;
use crate::statement_type::Statement;
use crate::stops::ParseStop;
use cose_sign1::{Sign1, Sign1Stop, bare_message_is_one, decode};
use std::alloc::Global;

fn read_message(alloc: Global, bytes: &[u8]) -> Result<Sign1, ParseStop>
    ensures { Opened bytes.now result }
{
    match decode(alloc, bytes) {
        Ok(message) => Ok(message),
        Err(Sign1Stop::OutOfMemory) => Err(ParseStop::OutOfMemory),
        Err(stop) => Err(ParseStop::Sign1(stop)),
    }
}

/// Reads bytes as a statement. A caller hands in at most 16,777,216 of them.
///
/// The rules are tried in turn, and the first that fails is the refusal. `Sign1(stop)`: it is a message. `Detached`: it has a payload.
/// `NoClaims`: its protected map has claims (RFC 9597, 2). `NoIssuer`, `NoSubject`: claims 1 and 2 are among them (RFC 8392, 3.1.1 and
/// 3.1.2). `NoKid`: its protected map has a kid (RFC 9052, 3.1). `BadClaim(n)`, from the smallest n on: a name (1, 2) is a text of 1
/// to 1,024 bytes, and a moment (4, 5, 6) that is given is an unsigned number below 2^63 (RFC 8392, 3.1.4 to 3.1.6).
/// `TooLarge`: its logged form has at most 4,194,304 bytes. `OutOfMemory` is the want of memory alone.
pub fn parse(alloc: Global, bytes: &[u8]) -> Result<Statement, ParseStop>
    ensures { Parsed bytes.now result }
{
    let message = read_message(alloc, bytes)?;
    let Sign1 {
        tagged: _,
        protected,
        headers,
        payload,
        signature,
    } = message;
    let Some(payload) = payload else {
        return Err(ParseStop::Detached);
    };
    let names = names_of(alloc, headers.protected.as_slice())?;
    let Ok(receipts) = receipts_of(alloc, headers.unprotected.as_slice()) else {
        return Err(ParseStop::OutOfMemory);
    };
    let logged = logged_form(
        alloc,
        protected.as_slice(),
        payload.as_slice(),
        signature.as_slice(),
    )?;
    bare_message_is_one();
    Ok(assemble(names, protected, payload, signature, logged, receipts))
}
