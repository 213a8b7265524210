use crate::runs::run;
use std::test::Fail;

// Documents in hexadecimal, the status, and the text. The first document is the profile's worked one of 75 bytes, and the
// second the same with the version 0; the others follow the profile's table of places.
#[test]
fn counts_what_a_policy_says(rt: HostRuntime) -> Result<(), Fail> {
    for (bytes, status, text) in [
        (
            "850101818363676f764101583c000102030405060708090a0b0c0d0e0f101112131415161718191a1b1c1d1e1f202122232425262728292a2b2c2d2e2f303132333435363738393a3b8080",
            0,
            "version 1\ngovernors 1\nissuers 0\nrules 0\n",
        ),
        (
            "850100818363676f764101583c000102030405060708090a0b0c0d0e0f101112131415161718191a1b1c1d1e1f202122232425262728292a2b2c2d2e2f303132333435363738393a3b8080",
            1,
            "refused policy 2\n",
        ),
        (
            "85011affffffff818363676f764101583c000102030405060708090a0b0c0d0e0f101112131415161718191a1b1c1d1e1f202122232425262728292a2b2c2d2e2f303132333435363738393a3b81836361636d410c583c000102030405060708090a0b0c0d0e0f101112131415161718191a1b1c1d1e1f202122232425262728292a2b2c2d2e2f303132333435363738393a3b828318640181008318650082028107",
            0,
            "version 4294967295\ngovernors 1\nissuers 1\nrules 2\n",
        ),
        ("80", 1, "refused policy 1\n"),
        ("", 1, "refused cbor Truncated at 0\n"),
        ("8501010101", 1, "refused cbor Truncated at 5\n"),
        ("850101010101", 1, "refused policy 3\n"),
        ("850101", 1, "refused cbor Truncated at 3\n"),
        ("81181700", 1, "refused cbor NotShortest at 1\n"),
    ] {
        let bytes = hex::decode(rt.alloc(), bytes)?;
        let (had, said) = run(rt.alloc(), &["policy", "f"], &bytes)?;
        assert_eq!(rt; had, status, "the status at {text}");
        assert_eq!(rt; said.as_slice(), text.as_bytes(), "the text at {text}");
    }
    Ok(())
}
