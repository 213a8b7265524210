ghost use Rattle.std.specs.Prelude.{◌≡◌, IfOk};
ghost use Rattle.statement.specs.declared.statement_type.Statement.{Statement};
ghost use Rattle.statement.specs.Parsed.{StatementOf};
ghost use Rattle.scitt_tool.specs.Attach.{AttachOf, proves_entry as is_of_entry, may_attach as may_be_attached, NoReceipt, NoRoom};

use crate::stop::refused_statement;
use cbor_core::{strict_item_is_exact, whole_bytes_have_one_answer};
use command_line::Answer;
use cose_sign1::{Sign1Stop, messages_have_one_answer};
use receipts::{Proof, ReceiptStop, decode};
use statement::{ParseStop, parse};
use std::alloc::{AllocError, Global};

/// How long a receipt may be, in bytes.
const LONGEST: usize = 4_198_400;

/// What `attach` answers of a statement's bytes and a receipt's.
pub(crate) fn attach(alloc: Global, bytes: &[u8], receipt: &[u8]) -> Result<Answer, AllocError>
    ensures { IfOk result (AttachOf bytes.now receipt.now) }
{
    match parse(alloc, bytes) {
        Ok(_statement) => attach_to(alloc, bytes, receipt),
        Err(ParseStop::OutOfMemory) => Err(AllocError),
        Err(stop) => refused_statement(alloc, &stop),
    }
}

// Whether the bytes are a receipt of an entry that isn't too long for a message.
fn may_attach(alloc: Global, receipt: &[u8]) -> Result<bool, AllocError>
    ensures { IfOk result (λ may. may ≡ may_be_attached receipt.now) }
{
    if receipt.len() > LONGEST {
        return Ok(false);
    }
    strict_item_is_exact();
    whole_bytes_have_one_answer();
    match decode(alloc, receipt) {
        Ok(receipt) => Ok(proves_entry(&receipt.proof)),
        Err(stop) => no_receipt(&stop),
    }
}

fn no_receipt(stop: &ReceiptStop) -> Result<bool, AllocError>
    ensures { NoReceipt stop.now result }
{
    match stop {
        ReceiptStop::OutOfMemory => Err(AllocError),
        _ => Ok(false),
    }
}

fn proves_entry(proof: &Proof) -> bool
    ensures { result ≡ is_of_entry proof.now }
{
    match proof {
        Proof::Inclusion { .. } => true,
        Proof::Consistency { .. } => false,
    }
}

// What is answered of a statement's bytes.
fn attach_to(alloc: Global, bytes: &[u8], receipt: &[u8]) -> Result<Answer, AllocError>
    requires { (statement : Statement) × StatementOf bytes.now statement }
    ensures { IfOk result (AttachOf bytes.now receipt.now) }
{
    if !may_attach(alloc, receipt)? {
        return Ok(Answer::fixed(1, "refused receipt\n"));
    }
    messages_have_one_answer();
    match cose_sign1::attach(alloc, bytes, receipt) {
        Ok(attached) => Ok(Answer::bytes(0, attached)),
        Err(stop) => no_room(&stop),
    }
}

fn no_room(stop: &Sign1Stop) -> Result<Answer, AllocError>
    ensures { NoRoom stop.now result }
{
    match stop {
        Sign1Stop::OutOfMemory => Err(AllocError),
        _ => Ok(Answer::fixed(1, "refused BadHeader 394\n")),
    }
}
