use crate::runs::run;
use std::test::Fail;

// Statements in hexadecimal, and their lines. The ids are those that a program of its own in Python computed: SHA-256 of
// tag 18 on the protected string, an empty map, the payload and the signature.
#[test]
fn shows_what_a_statement_says(rt: HostRuntime) -> Result<(), Fail> {
    for (bytes, text) in [
        (
            "d28454a301382d0441010fa2016461636d650263706b67a04268694100",
            "tagged yes\nalg -46\nkid 01\ncontent-type none\nissuer acme\nsubject pkg\nnbf none\nexp none\niat none\npayload 2\nsignature 1\nreceipts 0\nid 8b5653a76fb53316a0610a48be11fe18c53185d61344fcd1cd530ffebec24ee6\n",
        ),
        (
            "8454a301382d0441010fa2016461636d650263706b67a04268694100",
            "tagged no\nalg -46\nkid 01\ncontent-type none\nissuer acme\nsubject pkg\nnbf none\nexp none\niat none\npayload 2\nsignature 1\nreceipts 0\nid 8b5653a76fb53316a0610a48be11fe18c53185d61344fcd1cd530ffebec24ee6\n",
        ),
        (
            "d2845830a401654d4c5cc3a90365617f20627e04430001020fa50162c3a902622073041a6553f100051b7fffffffffffffff0600a119018a82410140405818000000000000000000000000000000000000000000000000",
            "tagged yes\nalg ML\\x5c\\xc3\\xa9\nkid 000102\ncontent-type a\\x7f b~\nissuer \\xc3\\xa9\nsubject  s\nnbf 9223372036854775807\nexp 1700000000\niat 0\npayload 0\nsignature 24\nreceipts 2\nid eecef603b621629cb16f421508e689f19e1d3832f7d51d409451201916b3a8f8\n",
        ),
        (
            "844fa303600442ffff0fa2016169026173a0581878787878787878787878787878787878787878787878787840",
            "tagged no\nalg none\nkid ffff\ncontent-type \nissuer i\nsubject s\nnbf none\nexp none\niat none\npayload 24\nsignature 0\nreceipts 0\nid 10893945f88d7d1138093601e310a5cf286e3f449373a74a4108248ecb4915bd\n",
        ),
        (
            "d2845819a4011bffffffffffffffff03183c04416b0fa2016169026173a04040",
            "tagged yes\nalg 18446744073709551615\nkid 6b\ncontent-type 60\nissuer i\nsubject s\nnbf none\nexp none\niat none\npayload 0\nsignature 0\nreceipts 0\nid c80195916494a9301f9816d3d22afce956eba9d8a07d3e84fb4c9a9178228a1f\n",
        ),
        (
            "d28456a3013bffffffffffffffff04416b0fa2016169026173a04040",
            "tagged yes\nalg -18446744073709551616\nkid 6b\ncontent-type none\nissuer i\nsubject s\nnbf none\nexp none\niat none\npayload 0\nsignature 0\nreceipts 0\nid ada75dbc61c46258196d60abfde64a8bfdab035d93d657d6625dfd2fc5aa908c\n",
        ),
    ] {
        let bytes = hex::decode(rt.alloc(), bytes)?;
        let (status, said) = run(rt.alloc(), &["show", "f"], &bytes)?;
        assert_eq!(rt; status, 0, "the status at {text}");
        assert_eq!(rt; said.as_slice(), text.as_bytes(), "the text at {text}");
    }
    Ok(())
}

// Bytes in hexadecimal that are no statement, and the line of the first rule that fails.
#[test]
fn names_the_first_rule_that_fails(rt: HostRuntime) -> Result<(), Fail> {
    for (bytes, text) in [
        (
            "d28448a201382d1801382da04040",
            "refused protected DupKey at 4\n",
        ),
        ("d28440a04040", "refused NoClaims\n"),
        ("d28441a0a04040", "refused NoClaims\n"),
        ("", "refused cbor Truncated at 0\n"),
        ("d28440a0404000", "refused cbor Trailing at 6\n"),
        ("a2010001", "refused cbor DupKey at 3\n"),
        ("d28441a1a04040", "refused protected Truncated at 1\n"),
        (
            "d28454a301382d0441010fa2016461636d650263706b67a0f640",
            "refused Detached\n",
        ),
        ("d28447a201382d044101a04040", "refused NoClaims\n"),
        ("d28449a20441010fa1026170a04040", "refused NoIssuer\n"),
        ("d28449a20441010fa1016170a04040", "refused NoSubject\n"),
        ("d28449a10fa2016170026170a04040", "refused NoKid\n"),
        ("d2844ba20441010fa20160026170a04040", "refused BadClaim 1\n"),
        (
            "d2844ea20441010fa30161700261700520a04040",
            "refused BadClaim 5\n",
        ),
        (
            "d2844ba204400fa2016170026170a04040",
            "refused BadHeader 4\n",
        ),
        (
            "d28450a304413119018a800fa2016170026170a04040",
            "refused BadHeader 394\n",
        ),
        (
            "d2844ea304413126000fa2016170026170a126004040",
            "refused DupLabel -7\n",
        ),
        (
            "d28451a30441316361c3a9000fa2016170026170a16361c3a9004040",
            "refused DupLabel a\\xc3\\xa9\n",
        ),
        (
            "d2844ea302800441310fa2016170026170a04040",
            "refused BadCrit\n",
        ),
        ("01", "refused NotSign1\n"),
        ("d28441a0a140004040", "refused NotSign1\n"),
    ] {
        let bytes = hex::decode(rt.alloc(), bytes)?;
        let (status, said) = run(rt.alloc(), &["show", "f"], &bytes)?;
        assert_eq!(rt; status, 1, "the status at {text}");
        assert_eq!(rt; said.as_slice(), text.as_bytes(), "the text at {text}");
    }
    Ok(())
}

// Of two rules that a statement breaks, the earlier is named: crit stands before a payload that is nil, and a claim before the
// length of the logged form.
#[test]
fn names_the_earlier_of_two(rt: HostRuntime) -> Result<(), Fail> {
    let detached = hex::decode(rt.alloc(), "d2844ea302800441310fa2016170026170a0f640")?;
    let (status, said) = run(rt.alloc(), &["show", "f"], &detached)?;
    assert_eq!(rt; status, 1);
    assert_eq!(rt; said.as_slice(), b"refused BadCrit\n".as_slice());
    for (front, text) in [
        (
            "d2844ea20441010fa30161700261700520a05a00400000",
            "refused BadClaim 5\n",
        ),
        (
            "d2844ca20441010fa2016170026170a05a00400000",
            "refused TooLarge\n",
        ),
    ] {
        let mut bytes = hex::decode(rt.alloc(), front)?;
        let len = bytes.len();
        bytes.resize(len + 4_194_304, 0)?;
        bytes.push(0x40)?;
        let (status, said) = run(rt.alloc(), &["show", "f"], &bytes)?;
        assert_eq!(rt; status, 1, "the status at {text}");
        assert_eq!(rt; said.as_slice(), text.as_bytes(), "the text at {text}");
    }
    Ok(())
}

// A longer file than 16,777,216 bytes isn't judged.
#[test]
fn shows_no_longer_file(rt: HostRuntime) -> Result<(), Fail> {
    let bytes = vec![in rt.alloc(); 0xf6; 16_777_217]?;
    let (status, said) = run(rt.alloc(), &["show", "f"], &bytes)?;
    assert_eq!(rt; status, 8);
    assert_eq!(rt; said.as_slice(), b"too long 16777216\n".as_slice());
    Ok(())
}
