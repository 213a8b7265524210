//! `replay`, over scripts in a folder.
use crate::runs::run;
use crate::scripts::{CUT, ENDED, FRONT, NO_SCRIPTS};
use scitt_tool::Status;
use sha2::{Digest, Sha256};
use std::alloc::Global;
use std::test::Fail;

// The first script that isn't answered with this status and its text.
fn first_other(
    alloc: Global,
    scripts: &[(&str, &str)],
    status: Status,
) -> Result<Option<usize>, Fail> {
    for (place, (script, text)) in scripts.iter().enumerate() {
        let script = hex::decode(alloc, *script)?;
        let text = hex::decode(alloc, *text)?;
        let (had, said) = run(alloc, &["replay", "f"], &script)?;
        if had != status || said.as_slice() != text.as_slice() {
            return Ok(Some(place));
        }
    }
    Ok(None)
}

#[test]
fn plays_scripts(rt: HostRuntime) -> Result<(), Fail> {
    assert_eq!(rt; first_other(rt.alloc(), ENDED, 0)?, None);
    Ok(())
}

#[test]
fn plays_scripts_that_are_cut(rt: HostRuntime) -> Result<(), Fail> {
    assert_eq!(rt; first_other(rt.alloc(), CUT, 1)?, None);
    Ok(())
}

#[test]
fn refuses_what_is_no_script(rt: HostRuntime) -> Result<(), Fail> {
    for script in NO_SCRIPTS {
        let bytes = hex::decode(rt.alloc(), *script)?;
        let (status, said) = run(rt.alloc(), &["replay", "f"], &bytes)?;
        assert_eq!(rt; status, 1, "{script}");
        assert_eq!(rt; said.as_slice(), b"refused script\n".as_slice(), "{script}");
    }
    Ok(())
}

// The thousandth answer is the last, and one request is left without any. The length and the digest are those of `bench/scripts.py`.
#[test]
fn plays_a_thousand_requests(rt: HostRuntime) -> Result<(), Fail> {
    let mut script = hex::decode(rt.alloc(), FRONT)?;
    for _ in 0..1001 {
        script.extend_from_slice(b"GET /entries/7 HTTP/1.1\r\nHost: log\r\n\r\n")?;
    }
    assert_eq!(rt; script.len(), 38_185);
    let (status, said) = run(rt.alloc(), &["replay", "f"], &script)?;
    assert_eq!(rt; (status, said.len()), (1, 132_019));
    let mut hasher = Sha256::new();
    hasher.update(said.as_slice());
    let digest = hex::encode(rt.alloc(), hasher.finalize())?;
    assert_eq!(rt;
        digest.as_str(),
        "8d43ab69e26ff9ff373411621a67d808450750df05afd33056d99382c984f85c"
    );
    Ok(())
}
