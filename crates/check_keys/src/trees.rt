// Trees of one-time keys.

use crate::vectors::{GIVEN_KEY, GIVEN_SIGNATURE, ONE_TREE};
use hex::FromHex;
use lms_ots::{Hash, OtsType, ots_type};
use lms_tree::{Level, LmsType, Tree, height, leaf_count, lms_sig_len, lms_type, verify};
use sha2::{Digest, Sha256};
use std::process::Abort;
use std::test::Fail;

#[test]
fn types_have_their_codes(rt: HostRuntime) {
    let table = [
        (5, LmsType::H5, 1292),
        (6, LmsType::H10, 1452),
        (7, LmsType::H15, 1612),
        (8, LmsType::H20, 1772),
        (9, LmsType::H25, 1932),
    ];
    for (code, lms, len) in table {
        assert_eq!(rt; lms_type(code), Some(lms));
        assert_eq!(rt;
            lms_sig_len(Level {
                lms,
                ots: OtsType::W8
            }),
            len
        );
    }
    for code in [0, 4, 10, 0x0500_0000, u32::MAX] {
        assert_eq!(rt; lms_type(code), None);
    }
}

#[test]
fn a_signature_verifies_whole_and_unchanged_alone(rt: HostRuntime) -> Result<(), Fail> {
    let level = Level {
        lms: LmsType::H5,
        ots: OtsType::W8,
    };
    let tree = Tree::build(rt.alloc(), level, [7; 16], [9; 32])?;
    let public = tree.public();
    let mut sig = vec![in rt.alloc(); 0; 1292]?;
    tree.sign_into(31, b"a message", &mut sig);
    assert!(rt; verify(&public, &sig, b"a message"));
    assert!(rt; !verify(&public, &sig, b"another message"));
    let mut other = Vec::from_slice(rt.alloc(), &sig)?;
    other.push(0)?;
    assert!(rt; !verify(&public, &other, b"a message"));
    other.clear();
    assert!(rt; !verify(&public, &other, b"a message"));
    other.extend_from_slice(&sig)?;
    assert!(rt; other.pop().is_some());
    assert!(rt; !verify(&public, &other, b"a message"));
    for (place, byte) in [
        (3, 32),
        (3, 30),
        (0, 1),
        (7, 3),
        (1131, 6),
        (1131, 4),
        (1100, 0),
        (1291, 0),
    ] {
        refuses_changed(&rt, &public, &mut sig, place, byte);
    }
    for place in [3, 7, 8, 23, 24, 55] {
        refuses_under_changed(&rt, &public, &sig, place);
    }
    assert!(rt; verify(&public, &sig, b"a message"));
    Ok(())
}

// With this byte at this place the signature doesn't verify.
fn refuses_changed(rt: &impl Abort, public: &[u8; 56], sig: &mut [u8], place: usize, byte: u8) {
    assert!(rt; place < sig.len());
    let kept = sig[place];
    assert_ne!(rt; kept, byte);
    sig[place] = byte;
    assert!(rt; !verify(public, sig, b"a message"), "{place}");
    sig[place] = kept;
}

// Under a key that differs at this place the signature doesn't verify.
fn refuses_under_changed(rt: &impl Abort, public: &[u8; 56], sig: &[u8], place: usize) {
    assert!(rt; place < 56);
    let mut other = *public;
    other[place] ^= 1;
    assert!(rt; !verify(&other, sig, b"a message"), "{place}");
}

#[test]
fn keys_and_signatures_equal_those_of_another_implementation(rt: HostRuntime) -> Result<(), Fail> {
    for case in &ONE_TREE {
        let lms = lms_type(case.lms).ok_or("an unknown code")?;
        let ots = ots_type(case.ots).ok_or("an unknown code")?;
        let level = Level { lms, ots };
        let public = <[u8; 56]>::from_hex(case.public)?;
        let message = hex::decode(rt.alloc(), case.message)?;
        assert!(rt; height(level) == 5 || height(level) == 10);
        assert!(rt; case.q < leaf_count(level));
        let tree = Tree::build(
            rt.alloc(),
            level,
            <[u8; 16]>::from_hex(case.id)?,
            Hash::from_hex(case.seed)?,
        )?;
        assert_eq!(rt; tree.public(), public);
        assert_eq!(rt; lms_sig_len(level), case.len);
        let mut sig = vec![in rt.alloc(); 0; lms_sig_len(level)]?;
        tree.sign_into(case.q, &message, &mut sig);
        assert_eq!(rt;
            Sha256::digest(sig.as_slice()),
            Hash::from_hex(case.digest)?
        );
        assert!(rt; verify(&public, &sig, &message));
    }
    Ok(())
}

#[test]
fn the_given_key_verifies_the_given_signature(rt: HostRuntime) -> Result<(), Fail> {
    let key = <[u8; 60]>::from_hex(GIVEN_KEY)?;
    let mut public = [0; 56];
    public.copy_from_slice(&key[4..]);
    let sig = hex::decode(rt.alloc(), GIVEN_SIGNATURE)?;
    assert_eq!(rt; sig.len(), 4 + 1612);
    assert!(rt; verify(&public, &sig[4..], b""));
    assert!(rt; !verify(&public, &sig[4..], b"a"));
    assert!(rt; !verify(&public, &sig, b""));
    Ok(())
}
