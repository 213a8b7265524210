// What is asked of a log, and what it answers.
use cbor_core::Bytes;
use registrar::Registrar;
use scitt_disk::Disk;
use std::alloc::{AllocError, Global};
use std::test::Fail;
use test_cast::{admission, answer, digest, read_back};

/// One call.
#[derive(Clone, Copy)]
pub enum Step {
    /// The statement with this number, and the moment; the answer is told with its receipt.
    Register(usize, u64),
    /// The same, told without the receipt.
    Judge(usize, u64),
    /// The receipt of an entry.
    Receipt(u32),
    /// The logged form of an entry.
    Statement(u32),
    /// The consistency receipt of an older size.
    Consistency(u32),
    /// The policy in force.
    Policy,
    /// The keys that sign receipts.
    Keys,
    /// The entries, the records, the next signing index, and how often the disk failed.
    Counts,
}

// The answer to a statement, and the SHA-256 of the receipt where there is one.
fn registered<D: Disk>(
    alloc: Global,
    log: &mut Registrar<D>,
    statements: &[Bytes],
    number: usize,
    moment: u64,
) -> Result<String, Fail> {
    let bytes = statements.get(number).ok_or("no such statement")?;
    let (text, receipt) = admission(alloc, log, bytes, moment)?;
    let Some(receipt) = receipt else {
        return Ok(text);
    };
    let hash = digest(alloc, receipt.as_slice())?;
    Ok(format!(in alloc; "{text} {hash}")?)
}

fn judged<D: Disk>(
    alloc: Global,
    log: &mut Registrar<D>,
    statements: &[Bytes],
    number: usize,
    moment: u64,
) -> Result<String, Fail> {
    let bytes = statements.get(number).ok_or("no such statement")?;
    answer(alloc, log, bytes, moment)
}

fn hash_of(alloc: Global, bytes: Result<Bytes, AllocError>) -> Result<String, Fail> {
    let bytes = bytes?;
    digest(alloc, bytes.as_slice())
}

fn counts<D: Disk>(alloc: Global, log: &Registrar<D>) -> Result<String, Fail> {
    let size = log.size();
    let records = log.records();
    let next = log.next();
    let faults = log.faults();
    Ok(format!(in alloc; "counts {size} {records} {next} {faults}")?)
}

fn told_step<D: Disk>(
    alloc: Global,
    log: &mut Registrar<D>,
    statements: &[Bytes],
    step: Step,
) -> Result<String, Fail> {
    match step {
        Step::Register(number, moment) => registered(alloc, log, statements, number, moment),
        Step::Judge(number, moment) => judged(alloc, log, statements, number, moment),
        Step::Receipt(index) => read_back(alloc, log.receipt(alloc, index)),
        Step::Statement(index) => read_back(alloc, log.statement(alloc, index)),
        Step::Consistency(old) => read_back(alloc, log.consistency(alloc, old)),
        Step::Policy => hash_of(alloc, log.policy()),
        Step::Keys => hash_of(alloc, log.keys(alloc)),
        Step::Counts => counts(alloc, log),
    }
}

/// What a log answers to these calls, a line each. What is read is told by its SHA-256.
pub fn told_steps<D: Disk>(
    alloc: Global,
    log: &mut Registrar<D>,
    statements: &[Bytes],
    steps: &[Step],
) -> Result<String, Fail> {
    let mut text = String::new(alloc);
    for step in steps {
        let line = told_step(alloc, log, statements, *step)?;
        text.push_str(line.as_str())?;
        text.push('\n')?;
    }
    Ok(text)
}
