use super::message_vectors::MESSAGES;
use cbor_core::Fault;
use cose_sign1::{Label, Sign1, Sign1Stop, decode};
use std::alloc::{AllocError, Global};
use std::test::Fail;

fn labelled(alloc: Global, name: &str, label: &Label) -> Result<String, AllocError> {
    match label {
        Label::Int(n) => {
            let n = *n;
            format!(in alloc; "{name} {n}")
        }
        Label::Text(text) => {
            let text = text.as_str();
            format!(in alloc; "{name} {text}")
        }
    }
}

fn faulted(alloc: Global, name: &str, fault: &Fault) -> Result<String, AllocError> {
    let why = fault.why;
    let at = fault.at;
    format!(in alloc; "{name} {why:?} at {at}")
}

/// What the decoder said: `ok`, or the refusal with its place or label.
pub(crate) fn said(alloc: Global, answer: &Result<Sign1, Sign1Stop>) -> Result<String, AllocError> {
    match answer {
        Ok(_) => String::from_str(alloc, "ok"),
        Err(Sign1Stop::Cbor(fault)) => faulted(alloc, "cbor", fault),
        Err(Sign1Stop::Protected(fault)) => faulted(alloc, "protected", fault),
        Err(Sign1Stop::NotSign1) => String::from_str(alloc, "NotSign1"),
        Err(Sign1Stop::BadHeader(label)) => labelled(alloc, "BadHeader", label),
        Err(Sign1Stop::DupLabel(label)) => labelled(alloc, "DupLabel", label),
        Err(Sign1Stop::BadCrit) => String::from_str(alloc, "BadCrit"),
        Err(Sign1Stop::OutOfMemory) => String::from_str(alloc, "out of memory"),
    }
}

#[test]
fn messages_have_these_answers(rt: HostRuntime) -> Result<(), Fail> {
    let alloc = rt.alloc();
    for line in MESSAGES {
        let (input, wanted) = line.split_once('|').ok_or("no answer")?;
        let bytes = hex::decode(alloc, input)?;
        let answer = decode(alloc, bytes.as_slice());
        let text = said(alloc, &answer)?;
        assert_eq!(rt; text.as_str(), wanted, "{input}");
    }
    Ok(())
}

#[test]
fn a_statement_has_these_parts(rt: HostRuntime) -> Result<(), Fail> {
    let alloc = rt.alloc();
    let bytes = hex::decode(
        alloc,
        "d28454a301382d0441010fa2016461636d650263706b67a04268694100",
    )?;
    let Ok(message) = decode(alloc, bytes.as_slice()) else {
        return Err("refused".into());
    };
    assert!(rt; message.tagged);
    assert_eq!(rt; message.protected.len(), 20);
    assert_eq!(rt; message.headers.protected.len(), 3);
    assert_eq!(rt; message.headers.unprotected.len(), 0);
    let payload = message.payload.as_ref().ok_or("detached")?;
    assert_eq!(rt; payload.as_slice(), b"hi".as_slice());
    assert_eq!(rt; message.signature.as_slice(), [0].as_slice());
    Ok(())
}

#[test]
fn each_proper_prefix_is_truncated(rt: HostRuntime) -> Result<(), Fail> {
    let alloc = rt.alloc();
    let bytes = hex::decode(
        alloc,
        "d28454a301382d0441010fa2016461636d650263706b67a04268694100",
    )?;
    for n in 0..bytes.len() {
        let answer = decode(alloc, &bytes.as_slice()[..n]);
        let text = said(alloc, &answer)?;
        assert!(rt;
            text.as_str().starts_with("cbor Truncated at "),
            "{n} bytes"
        );
    }
    Ok(())
}
