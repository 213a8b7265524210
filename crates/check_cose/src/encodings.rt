use cbor_core::{EncodeStop, decode_wide_all};
use cose_sign1::{bare_into, bare_len, encode, to_be_signed_into, to_be_signed_len};
use std::alloc::Global;
use std::test::Fail;

/// The Sig_structure in hexadecimal.
fn structure(alloc: Global, protected: &str, payload: &str) -> Result<String, Fail> {
    let protected = hex::decode(alloc, protected)?;
    let payload = hex::decode(alloc, payload)?;
    if protected.len() > 4_198_400 || payload.len() > 4_198_400 {
        return Err("too long".into());
    }
    let len = to_be_signed_len(protected.as_slice(), payload.as_slice());
    let mut buf = vec![in alloc; 0; len]?;
    to_be_signed_into(protected.as_slice(), payload.as_slice(), &mut buf);
    Ok(hex::encode(alloc, buf.as_slice())?)
}

#[test]
fn structures_have_these_bytes(rt: HostRuntime) -> Result<(), Fail> {
    let alloc = rt.alloc();
    let empty = "846a5369676e617475726531404040";
    for protected in [
        "",
        "a0",
        "b800",
        "b90000",
        "ba00000000",
        "bb0000000000000000",
    ] {
        let text = structure(alloc, protected, "")?;
        assert_eq!(rt; text.as_str(), empty, "{protected}");
    }
    let text = structure(alloc, "a301382d0441010fa2016461636d650263706b67", "6869")?;
    let wanted = "846a5369676e61747572653154a301382d0441010fa2016461636d650263706b6740426869";
    assert_eq!(rt; text.as_str(), wanted);
    assert_eq!(rt; text.len(), 74);
    let text = structure(alloc, "a10500", "")?;
    assert_eq!(rt; text.as_str(), "846a5369676e61747572653143a105004040");
    Ok(())
}

/// A message in hexadecimal, or why it isn't encoded.
fn encoded(
    alloc: Global,
    protected: &str,
    unprotected: &str,
    payload: Option<&str>,
) -> Result<String, Fail> {
    let protected = hex::decode(alloc, protected)?;
    let unprotected = hex::decode(alloc, unprotected)?;
    let Ok(unprotected) = decode_wide_all(alloc, unprotected.as_slice()) else {
        return Err("no item".into());
    };
    let answer = match payload {
        Some(payload) => encode(
            alloc,
            protected.as_slice(),
            &unprotected,
            Some(payload.as_bytes()),
            &[0],
        ),
        None => encode(alloc, protected.as_slice(), &unprotected, None, &[0]),
    };
    match answer {
        Ok(bytes) => Ok(hex::encode(alloc, bytes.as_slice())?),
        Err(EncodeStop::NotStrict) => Ok(String::from_str(alloc, "NotStrict")?),
        Err(EncodeStop::OutOfMemory) => Ok(String::from_str(alloc, "out of memory")?),
    }
}

#[test]
fn messages_are_encoded_so(rt: HostRuntime) -> Result<(), Fail> {
    let alloc = rt.alloc();
    let protected = "a301382d0441010fa2016461636d650263706b67";
    let text = encoded(alloc, protected, "a0", Some("hi"))?;
    assert_eq!(rt;
        text.as_str(),
        "d28454a301382d0441010fa2016461636d650263706b67a04268694100"
    );
    let text = encoded(alloc, "", "a119018a81410a", None)?;
    assert_eq!(rt; text.as_str(), "d28440a119018a81410af64100");
    let text = encoded(alloc, "", "a202000100", Some("hi"))?;
    assert_eq!(rt; text.as_str(), "NotStrict");
    let text = encoded(alloc, "", "a105f93c00", Some("hi"))?;
    assert_eq!(rt; text.as_str(), "NotStrict");
    Ok(())
}

#[test]
fn a_bare_message_is_the_encoded_one(rt: HostRuntime) -> Result<(), Fail> {
    let alloc = rt.alloc();
    let protected = hex::decode(alloc, "a301382d0441010fa2016461636d650263706b67")?;
    assert!(rt; protected.len() <= 4_198_400);
    let len = bare_len(protected.as_slice(), b"hi", &[0]);
    let mut buf = vec![in alloc; 0; len]?;
    bare_into(protected.as_slice(), b"hi", &[0], &mut buf);
    let text = hex::encode(alloc, buf.as_slice())?;
    assert_eq!(rt;
        text.as_str(),
        "d28454a301382d0441010fa2016461636d650263706b67a04268694100"
    );
    Ok(())
}
