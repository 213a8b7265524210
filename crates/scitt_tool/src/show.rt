ghost use Rattle.std.specs.Prelude.{◌≡◌, ◌++◌, IfOk, OnOk};
ghost use Rattle.std.specs.Fmt.{decimal};
ghost use Rattle.std.specs.String.{string_bytes};
ghost use Rattle.scitt_tool.specs.Answer.{line};
ghost use Rattle.cose_sign1.specs.Sign1Of.{begins_tagged};
ghost use Rattle.scitt_tool.specs.Show.{ShowOf, tagged_text, alg_text, type_text, moment_text, header_lines, claim_lines, part_lines, show_lines};

use crate::lines::{count_text, push_line};
use crate::stop::{label_text, printed_text, refused_statement};
use command_line::Answer;
use cose_sign1::{Label, tag_stands_first};
use statement::{ContentType, ParseStop, Statement, parse};
use std::alloc::{AllocError, Global};

/// What `show` answers of a file's bytes.
pub(crate) fn show(alloc: Global, bytes: &[u8]) -> Result<Answer, AllocError>
    ensures { IfOk result (ShowOf bytes.now) }
{
    match parse(alloc, bytes) {
        Ok(statement) => {
            tag_stands_first();
            let text = lines(alloc, is_tagged(bytes), &statement)?;
            Ok(Answer::made(0, text))
        }
        Err(ParseStop::OutOfMemory) => Err(AllocError),
        Err(stop) => refused_statement(alloc, &stop),
    }
}

fn is_tagged(bytes: &[u8]) -> bool
    ensures { result ≡ begins_tagged bytes.now }
{
    match bytes.first() {
        Some(first) => *first / 32 == 6,
        None => false,
    }
}

fn lines(alloc: Global, tagged: bool, statement: &Statement) -> Result<String, AllocError>
    ensures { IfOk result (λ text. string_bytes text ≡ show_lines tagged statement.now) }
{
    let mut text = header_lines(alloc, tagged_text(tagged), statement)?;
    let claims = claim_lines(alloc, statement)?;
    let parts = part_lines(alloc, statement)?;
    text.push_str(claims.as_str())?;
    text.push_str(parts.as_str())?;
    Ok(text)
}

fn header_lines(alloc: Global, tagged: &str, statement: &Statement) -> Result<String, AllocError>
    ensures { IfOk result (λ text. string_bytes text ≡ header_lines tagged.now statement.now) }
{
    let alg = alg_text(alloc, &statement.alg)?;
    let kid = hex::encode(alloc, statement.kid.as_slice())?;
    let content_type = type_text(alloc, &statement.content_type)?;
    let mut text = String::new(alloc);
    push_line(&mut text, "tagged ", tagged)?;
    push_line(&mut text, "alg ", alg.as_str())?;
    push_line(&mut text, "kid ", kid.as_str())?;
    push_line(&mut text, "content-type ", content_type.as_str())?;
    Ok(text)
}

fn claim_lines(alloc: Global, statement: &Statement) -> Result<String, AllocError>
    ensures { IfOk result (λ text. string_bytes text ≡ claim_lines statement.now) }
{
    let issuer = printed_text(alloc, statement.issuer.as_slice())?;
    let subject = printed_text(alloc, statement.subject.as_slice())?;
    let nbf = moment_text(alloc, statement.nbf)?;
    let exp = moment_text(alloc, statement.exp)?;
    let iat = moment_text(alloc, statement.iat)?;
    let mut text = String::new(alloc);
    push_line(&mut text, "issuer ", issuer.as_str())?;
    push_line(&mut text, "subject ", subject.as_str())?;
    push_line(&mut text, "nbf ", nbf.as_str())?;
    push_line(&mut text, "exp ", exp.as_str())?;
    push_line(&mut text, "iat ", iat.as_str())?;
    Ok(text)
}

fn part_lines(alloc: Global, statement: &Statement) -> Result<String, AllocError>
    ensures { IfOk result (λ text. string_bytes text ≡ part_lines statement.now) }
{
    let payload = count_text(alloc, statement.payload.as_slice().len())?;
    let signature = count_text(alloc, statement.signature.as_slice().len())?;
    let receipts = count_text(alloc, statement.receipts.len())?;
    let id = hex::encode(alloc, statement.id.as_slice())?;
    let mut text = String::new(alloc);
    push_line(&mut text, "payload ", payload.as_str())?;
    push_line(&mut text, "signature ", signature.as_str())?;
    push_line(&mut text, "receipts ", receipts.as_str())?;
    push_line(&mut text, "id ", id.as_str())?;
    Ok(text)
}

fn tagged_text(tagged: bool) -> &'static str
    ensures { result.now ≡ tagged_text tagged }
{
    if tagged { "yes" } else { "no" }
}

fn alg_text(alloc: Global, alg: &Option<Label>) -> Result<String, AllocError>
    ensures { IfOk result (λ text. string_bytes text ≡ alg_text alg.now) }
{
    match alg {
        Some(label) => label_text(alloc, label),
        None => format!(in alloc; "none"),
    }
}

fn type_text(alloc: Global, content_type: &ContentType) -> Result<String, AllocError>
    ensures { IfOk result (λ text. string_bytes text ≡ type_text content_type.now) }
{
    match content_type {
        ContentType::Absent => format!(in alloc; "none"),
        ContentType::Named(text) => printed_text(alloc, text.as_slice()),
        ContentType::Number(n) => format!(in alloc; "{n}"),
    }
}

fn moment_text(alloc: Global, moment: Option<u64>) -> Result<String, AllocError>
    ensures { IfOk result (λ text. string_bytes text ≡ moment_text moment) }
{
    match moment {
        Some(moment) => format!(in alloc; "{moment}"),
        None => format!(in alloc; "none"),
    }
}
