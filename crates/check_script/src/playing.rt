// Scripts that are replayed.
use super::vectors::SCRIPTS;
use cbor_core::Bytes;
use scitt_answers::SessionEnd;
use scitt_script::{ScriptStop, decode, replay};
use std::alloc::Global;
use std::test::Fail;
use test_cast::{Cast, digest, genesis, issued, new_cast};

const ALG: &[u8] = &[0x38, 0x2d];

// How a session ended.
fn end_text(end: SessionEnd) -> &'static str {
    match end {
        SessionEnd::Ended => "Ended",
        SessionEnd::CutShort => "CutShort",
        SessionEnd::HeadRefused => "HeadRefused",
        SessionEnd::TurnsSpent => "TurnsSpent",
        SessionEnd::ReadFault => "ReadFault",
        SessionEnd::WriteFault => "WriteFault",
        SessionEnd::OutOfMemory => "OutOfMemory",
    }
}

// What comes of these bytes.
fn said(alloc: Global, bytes: &[u8]) -> Result<String, Fail> {
    let script = match decode(alloc, bytes) {
        Ok(script) => script,
        Err(ScriptStop::BadScript) => return Ok(String::from_str(alloc, "no script")?),
        Err(ScriptStop::OutOfMemory) => return Err("no memory for a script".into()),
    };
    match replay(alloc, script) {
        Ok(replayed) => {
            let heard = digest(alloc, &replayed.text)?;
            let end = end_text(replayed.end);
            Ok(format!(in alloc; "{end} {heard}")?)
        }
        Err(ScriptStop::BadScript) => Ok(String::from_str(alloc, "broken limit")?),
        Err(ScriptStop::OutOfMemory) => Err("no memory for a replay".into()),
    }
}

#[test]
fn scripts_are_replayed_and_refused_so(rt: HostRuntime) -> Result<(), Fail> {
    let alloc = rt.alloc();
    for row in SCRIPTS {
        let (bytes, wanted) = row.split_once("|").ok_or("no bar")?;
        let bytes = hex::decode(alloc, bytes)?;
        let text = said(alloc, bytes.as_slice())?;
        assert_eq!(rt; text.as_str(), wanted, "{row}");
    }
    Ok(())
}

fn get(out: &mut Vec<u8>, target: &str) -> Result<(), Fail> {
    out.extend_from_slice(b"GET ")?;
    out.extend_from_slice(target.as_bytes())?;
    out.extend_from_slice(b" HTTP/1.1\r\nHost: log\r\n\r\n")?;
    Ok(())
}

fn post(alloc: Global, out: &mut Vec<u8>, body: &Bytes) -> Result<(), Fail> {
    out.extend_from_slice(b"POST /entries HTTP/1.1\r\nContent-Type: application/cose\r\n")?;
    let length = format!(in alloc; "Content-Length: {}\r\n\r\n", body.len())?;
    out.extend_from_slice(length.as_bytes())?;
    out.extend_from_slice(body.as_slice())?;
    Ok(())
}

// A policy, two statements, and what is read between them.
fn life(alloc: Global, cast: &mut Cast) -> Result<Vec<u8>, Fail> {
    let mut sent = Vec::new(alloc);
    post(alloc, &mut sent, &genesis(alloc, cast)?)?;
    get(&mut sent, "/entries/0")?;
    post(alloc, &mut sent, &issued(alloc, cast, 0, ALG, &[0])?)?;
    get(&mut sent, "/consistency/1")?;
    post(alloc, &mut sent, &issued(alloc, cast, 1, ALG, &[1])?)?;
    get(&mut sent, "/entries/1/statement")?;
    get(&mut sent, "/policy")?;
    Ok(sent)
}

// `[1, seed, id, "log", ["gov", 01, key], [[5, 1]], 100, 4, [1700000000, 1700000001], sent]`.
fn script(alloc: Global, cast: &Cast, sent: &[u8]) -> Result<Vec<u8>, Fail> {
    let mut out = Vec::from_slice(alloc, b"\x8a\x01\x58\x20")?;
    out.extend_from_slice(&[7; 32])?;
    out.push(0x50)?;
    out.extend_from_slice(&[9; 16])?;
    out.extend_from_slice(b"\x63log\x83\x63gov\x41\x01\x58\x3c")?;
    out.extend_from_slice(cast.governor.public().as_slice())?;
    out.extend_from_slice(
        b"\x81\x82\x05\x01\x18\x64\x04\x82\x1a\x65\x53\xf1\x00\x1a\x65\x53\xf1\x01\x59",
    )?;
    let length = u16::try_from(sent.len()).map_err(|_| "a long session")?;
    out.extend_from_slice(&length.to_be_bytes())?;
    out.extend_from_slice(sent)?;
    Ok(out)
}

// The third statement finds no moment.
#[test]
fn a_life_is_replayed(rt: HostRuntime) -> Result<(), Fail> {
    let alloc = rt.alloc();
    let mut cast = new_cast(alloc)?;
    let sent = life(alloc, &mut cast)?;
    let script = script(alloc, &cast, &sent)?;
    let hash = digest(alloc, &script)?;
    assert_eq!(rt;
        hash.as_str(),
        "3aada03a6a5bb50c79713ea383348e6fd9037616f0069fd1f6a692b15a079598"
    );
    let text = said(alloc, &script)?;
    assert_eq!(rt;
        text.as_str(),
        "Ended 49905541d0eab5a032987e1be13d7f626ea850b77d1d7288c573fe0a455a7fea"
    );
    Ok(())
}
