use super::statement_vectors::STATEMENTS;
use cose_sign1::{Label, Sign1Stop};
use statement::{ContentType, ParseStop, Statement, parse};
use std::alloc::{AllocError, Global};
use std::test::Fail;

fn number(alloc: Global, moment: &Option<u64>) -> Result<String, AllocError> {
    match moment {
        Some(m) => {
            let m = *m;
            format!(in alloc; "{m}")
        }
        None => String::from_str(alloc, "none"),
    }
}

fn alg(alloc: Global, alg: &Option<Label>) -> Result<String, AllocError> {
    match alg {
        Some(Label::Int(n)) => {
            let n = *n;
            format!(in alloc; "{n}")
        }
        Some(Label::Text(text)) => String::from_str(alloc, text.as_str()),
        None => String::from_str(alloc, "none"),
    }
}

fn kind(alloc: Global, kind: &ContentType) -> Result<String, AllocError> {
    match kind {
        ContentType::Absent => String::from_str(alloc, "none"),
        ContentType::Named(text) => String::from_str(alloc, text.as_str()),
        ContentType::Number(n) => {
            let n = *n;
            format!(in alloc; "{n}")
        }
    }
}

/// The fields of a statement, with blanks between them.
fn fields(alloc: Global, s: &Statement) -> Result<String, AllocError> {
    let issuer = s.issuer.as_str();
    let subject = s.subject.as_str();
    let kid = hex::encode(alloc, s.kid.as_slice())?;
    let alg = alg(alloc, &s.alg)?;
    let kind = kind(alloc, &s.content_type)?;
    let exp = number(alloc, &s.exp)?;
    let nbf = number(alloc, &s.nbf)?;
    let iat = number(alloc, &s.iat)?;
    let receipts = s.receipts.len();
    format!(in alloc; "{issuer} {subject} {kid} {alg} {kind} {exp} {nbf} {iat} {receipts}")
}

fn said(alloc: Global, answer: &Result<Statement, ParseStop>) -> Result<String, AllocError> {
    match answer {
        Ok(statement) => fields(alloc, statement),
        Err(ParseStop::Sign1(Sign1Stop::NotSign1)) => String::from_str(alloc, "NotSign1"),
        Err(ParseStop::Sign1(_)) => String::from_str(alloc, "no message"),
        Err(ParseStop::Detached) => String::from_str(alloc, "Detached"),
        Err(ParseStop::NoClaims) => String::from_str(alloc, "NoClaims"),
        Err(ParseStop::NoIssuer) => String::from_str(alloc, "NoIssuer"),
        Err(ParseStop::NoSubject) => String::from_str(alloc, "NoSubject"),
        Err(ParseStop::NoKid) => String::from_str(alloc, "NoKid"),
        Err(ParseStop::BadClaim(n)) => {
            let n = *n;
            format!(in alloc; "BadClaim {n}")
        }
        Err(ParseStop::TooLarge) => String::from_str(alloc, "TooLarge"),
        Err(ParseStop::OutOfMemory) => String::from_str(alloc, "out of memory"),
    }
}

#[test]
fn statements_have_these_answers(rt: HostRuntime) -> Result<(), Fail> {
    let alloc = rt.alloc();
    for line in STATEMENTS {
        let (input, wanted) = line.split_once('|').ok_or("no answer")?;
        let bytes = hex::decode(alloc, input)?;
        let answer = parse(alloc, bytes.as_slice());
        let text = said(alloc, &answer)?;
        assert_eq!(rt; text.as_str(), wanted, "{input}");
    }
    Ok(())
}

/// The logged form and the id of a statement in hexadecimal, with a blank between them.
fn logged(alloc: Global, input: &str) -> Result<String, Fail> {
    let bytes = hex::decode(alloc, input)?;
    let Ok(statement) = parse(alloc, bytes.as_slice()) else {
        return Err("refused".into());
    };
    let logged = hex::encode(alloc, statement.logged.as_slice())?;
    let id = hex::encode(alloc, statement.id.as_slice())?;
    let logged = logged.as_str();
    let id = id.as_str();
    Ok(format!(in alloc; "{logged} {id}")?)
}

#[test]
fn logged_forms_and_ids_are_these(rt: HostRuntime) -> Result<(), Fail> {
    let alloc = rt.alloc();
    let wanted =
        "d28454a301382d0441010fa2016461636d650263706b67a04268694100 8b5653a76fb53316a0610a48be11fe18c53185d61344fcd1cd530ffebec24ee6";
    let text = logged(
        alloc,
        "d28454a301382d0441010fa2016461636d650263706b67a04268694100",
    )?;
    assert_eq!(rt; text.as_str(), wanted, "tagged");
    let text = logged(
        alloc,
        "8454a301382d0441010fa2016461636d650263706b67a04268694100",
    )?;
    assert_eq!(rt; text.as_str(), wanted, "without its tag");
    let text = logged(
        alloc,
        "98045814a301382d0441010fa2016461636d650263706b67a119018a81410a4268694100",
    )?;
    assert_eq!(rt; text.as_str(), wanted, "in wider heads, with a receipt");
    let text = logged(
        alloc,
        "d28454a304410101382d0fa2016461636d650263706b67a04268694100",
    )?;
    assert_ne!(rt; text.as_str(), wanted, "another order of labels");
    Ok(())
}

/// A statement in the logged form whose payload has n zero bytes.
fn with_payload(alloc: Global, n: usize) -> Result<Vec<u8>, Fail> {
    let mut bytes = hex::decode(alloc, "d2844ca20441010fa2016161026162a05a")?;
    let [a, b, c, d] = u32::try_from(n)?.to_be_bytes();
    bytes.extend_from_slice(&[a, b, c, d])?;
    let len = bytes.len();
    if len > 100 || n > 5_000_000 {
        return Err("too long".into());
    }
    bytes.resize(len + n, 0)?;
    bytes.extend_from_slice(&[0x41, 0])?;
    Ok(bytes)
}

#[test]
fn a_logged_form_ends_at_its_limit(rt: HostRuntime) -> Result<(), Fail> {
    let alloc = rt.alloc();
    let bytes = with_payload(alloc, 4_194_281)?;
    let text = said(alloc, &parse(alloc, bytes.as_slice()))?;
    assert_eq!(rt; text.as_str(), "a b 01 none none none none none 0");
    let bytes = with_payload(alloc, 4_194_282)?;
    let text = said(alloc, &parse(alloc, bytes.as_slice()))?;
    assert_eq!(rt; text.as_str(), "TooLarge");
    Ok(())
}
