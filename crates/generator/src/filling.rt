// Stated statements, registered with a log.

ghost use Rattle.std.specs.Prelude.{◌≡◌, ◌≢◌, ◌≤◌, ◌+◌, ◌<◌, length, option_map, IfOk, IfSome, IfNone, OnOk};
ghost use Rattle.statement.specs.Said.{said_of, logged_statement};
ghost use Rattle.log_replay.specs.Seen.{wants_memory};
ghost use Rattle.generator.specs.Tallies.{Holds, HasRoom, Registers, Verdicts, longest, nothing, tally};

use cbor_core::{Bytes, strict_item_is_exact, strict_text_is_exact};
use log_replay::{Checked, check, growth_laws, log_laws, more_laws, record_laws};
use registrar::{Outcome, Registrar};
use scitt_disk::MemDisk;
use scitt_draft::Parties;
use statement::{
    ParseStop, Statement, logged_form_is_the_statement, parse, statements_have_one_answer,
};
use std::alloc::{AllocError, Global};

/// How many statements were admitted and denied.
#[derive(Clone, Copy)]
pub(crate) struct Counts {
    pub(crate) admitted: u32,
    pub(crate) denied: u32,
}

/// The moment of the governor's policy.
const POLICY_MOMENT: u64 = 1_700_000_000;

// The statement, where these bytes are its logged form.
fn when_logged(statement: Statement, bytes: &[u8]) -> Option<Statement>
    ensures some { IfSome result (λ s. (s ≡ statement) × (s.logged ≡ bytes.now)) }
    ensures none { IfNone result (statement.logged ≢ bytes.now) }
{
    if statement.logged.as_slice() == bytes {
        Some(statement)
    } else {
        None
    }
}

fn is_wanting(stop: &ParseStop) -> bool
    ensures { result ≡ wants_memory stop.now }
{
    matches!(stop, ParseStop::OutOfMemory)
}

// The statement that these bytes are the logged form of.
fn statement_of(alloc: Global, bytes: &[u8]) -> Result<Option<Statement>, AllocError>
    ensures { IfOk result (λ s. option_map said_of s ≡ logged_statement bytes.now) }
{
    logged_form_is_the_statement();
    statements_have_one_answer();
    match parse(alloc, bytes) {
        Ok(statement) => Ok(when_logged(statement, bytes)),
        Err(stop) => {
            if is_wanting(&stop) {
                return Err(AllocError);
            }
            Ok(None)
        }
    }
}

// The same, ready to be judged with the key that the log names for it.
fn checked_of(
    alloc: Global,
    log: &Registrar<MemDisk>,
    bytes: &[u8],
) -> Result<Option<Checked>, AllocError>
    ensures { IfOk result (λ checked. option_map (λ c. said_of c.statement) checked ≡ logged_statement bytes.now) }
{
    let Some(statement) = statement_of(alloc, bytes)? else {
        return Ok(None);
    };
    let key = log.key_hint(&statement);
    match check(alloc, statement, key) {
        Ok(checked) => Ok(Some(checked)),
        Err(_) => Err(AllocError),
    }
}

// How a statement was judged; `None` where the log holds it.
fn take(
    alloc: Global,
    log: &mut Registrar<MemDisk>,
    checked: &Checked,
    moment: u64,
) -> Result<Option<bool>, AllocError>
    requires room { HasRoom log.old.standing }
    requires short { length checked.now.statement.logged ≤ longest }
    ensures { IfOk result (λ verdict. Registers log.old.standing checked.now.statement.logged moment verdict log.new.standing) }
{
    logged_form_is_the_statement();
    record_laws();
    growth_laws();
    more_laws();
    log_laws();
    strict_item_is_exact();
    strict_text_is_exact();
    match log.register(alloc, checked, moment) {
        Outcome::Admitted { .. } => Ok(Some(true)),
        Outcome::Denied { .. } => Ok(Some(false)),
        Outcome::Known { .. } => Ok(None),
        Outcome::OutOfMemory | Outcome::DiskFault => Err(AllocError),
        Outcome::LogFull { .. } => unreachable!(),
        Outcome::KeyExhausted { .. } => unreachable!(),
        Outcome::Changed { .. } => unreachable!(),
    }
}

// How these bytes were judged; `None` where they are no statement, or one that the log holds.
fn register(
    alloc: Global,
    log: &mut Registrar<MemDisk>,
    bytes: &[u8],
    moment: u64,
) -> Result<Option<bool>, AllocError>
    requires room { HasRoom log.old.standing }
    requires short { length bytes.now ≤ longest }
    ensures { IfOk result (λ verdict. Registers log.old.standing bytes.now moment verdict log.new.standing) }
{
    match checked_of(alloc, log, bytes)? {
        Some(checked) => take(alloc, log, &checked, moment),
        None => Ok(None),
    }
}

// Registers the policy.
fn found(
    alloc: Global,
    log: &mut Registrar<MemDisk>,
    parties: &mut Parties,
) -> Result<(), AllocError>
    requires { Holds nothing log.old.standing }
    ensures { OnOk result (Holds (tally 0) log.new.standing) }
{
    let policy = parties.policy_statement(alloc)?;
    register(alloc, log, policy.as_slice(), POLICY_MOMENT)?;
    Ok(())
}

// Registers statement j.
fn step(
    alloc: Global,
    log: &mut Registrar<MemDisk>,
    parties: &mut Parties,
    j: u32,
) -> Result<Option<bool>, AllocError>
    requires few { j < 2000 }
    requires holds { Holds (tally j) log.old.standing }
    ensures holds { OnOk result (Holds (tally (j + 1)) log.new.standing) }
    ensures counts { IfOk result (λ verdict. Verdicts (tally j) verdict (tally (j + 1))) }
{
    let bytes = parties.statement(alloc, j)?;
    register(
        alloc,
        log,
        bytes.as_slice(),
        POLICY_MOMENT + 1 + u64::from(j),
    )
}

/// Registers the policy and so many statements.
pub(crate) fn fill(
    alloc: Global,
    log: &mut Registrar<MemDisk>,
    parties: &mut Parties,
    count: u32,
) -> Result<Counts, AllocError>
    requires few { count ≤ 2000 }
    requires holds { Holds nothing log.old.standing }
    ensures holds { OnOk result (Holds (tally count) log.new.standing) }
    ensures admitted { IfOk result (λ counts. counts.admitted ≡ (tally count).admitted) }
    ensures denied { IfOk result (λ counts. counts.denied ≡ (tally count).denied) }
{
    found(alloc, log, parties)?;
    let mut counts = Counts {
        admitted: 0,
        denied: 0,
    };
    for j in 0..count {
        match step(alloc, log, parties, j)? {
            Some(true) => counts.admitted += 1,
            Some(false) => counts.denied += 1,
            None => {}
        }
    }
    Ok(counts)
}
