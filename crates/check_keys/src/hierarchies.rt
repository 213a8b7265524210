// Levels of trees.

use crate::vectors::{GIVEN_KEY, GIVEN_SIGNATURE, HIERARCHIES, Hierarchy};
use hex::FromHex;
use hss_keys::{
    HssPublic, Key60, Level, Levels, LmsType, OtsType, Signer, flat_index, hss_verify, lms_type,
    names_levels, ots_type,
};
use lms_ots::Hash;
use sha2::{Digest, Sha256};
use std::alloc::Global;
use std::process::Abort;
use std::test::Fail;

const SMALL: Level = Level {
    lms: LmsType::H5,
    ots: OtsType::W8,
};

const TEN: Level = Level {
    lms: LmsType::H10,
    ots: OtsType::W1,
};

const TALL: Level = Level {
    lms: LmsType::H15,
    ots: OtsType::W8,
};

// The calls under test stand in functions of their own, so that a test's own goals stay short.

fn verifies(key: &Key60, msg: &[u8], sig: &[u8]) -> bool {
    hss_verify(key, msg, sig)
}

fn are_levels(items: &[Level]) -> bool {
    Levels::of(items).is_some()
}

fn is_key(key: &Key60) -> bool {
    HssPublic::read(key).is_some()
}

fn names(items: &[Level], key: &Key60) -> Result<bool, Fail> {
    let levels = Levels::of(items).ok_or("other levels")?;
    Ok(names_levels(&levels, key))
}

fn capacity_of(items: &[Level]) -> Result<u64, Fail> {
    let levels = Levels::of(items).ok_or("other levels")?;
    Ok(levels.capacity())
}

fn index_of(items: &[Level], sig: &[u8]) -> Result<Option<u64>, Fail> {
    let levels = Levels::of(items).ok_or("other levels")?;
    Ok(flat_index(&levels, sig))
}

fn signer_of(alloc: Global, seed: Hash, id: [u8; 16], items: &[Level]) -> Result<Signer, Fail> {
    let levels = Levels::of(items).ok_or("other levels")?;
    let signer = Signer::new(alloc, seed, id, levels)?;
    Ok(signer)
}

// The signature of this index.
fn signed(
    rt: &impl Abort,
    alloc: Global,
    signer: &mut Signer,
    index: u64,
    msg: &[u8],
) -> Result<Vec<u8>, Fail> {
    assert!(rt; index < signer.capacity());
    signer.prepare(alloc, index)?;
    assert_eq!(rt; signer.prepared(), index);
    let mut sig = vec![in alloc; 0; signer.sig_len()]?;
    signer.sign_into(index, msg, &mut sig);
    Ok(sig)
}

// The bytes with `byte` at this place.
fn changed(
    rt: &impl Abort,
    alloc: Global,
    bytes: &[u8],
    place: usize,
    byte: u8,
) -> Result<Vec<u8>, Fail> {
    let mut all = Vec::from_slice(alloc, bytes)?;
    assert!(rt; place < all.len());
    all[place] = byte;
    Ok(all)
}

#[test]
fn levels_are_one_to_three_of_heights_5_and_10(rt: HostRuntime) {
    assert!(rt; !are_levels(&[]));
    assert!(rt; are_levels(&[SMALL]));
    assert!(rt; are_levels(&[SMALL, TEN, TEN]));
    assert!(rt; !are_levels(&[SMALL, TEN, TEN, SMALL]));
    assert!(rt; !are_levels(&[SMALL, TALL]));
}

#[test]
fn levels_sign_2_to_the_sum_of_their_heights(rt: HostRuntime) -> Result<(), Fail> {
    assert_eq!(rt; capacity_of(&[SMALL])?, 32);
    assert_eq!(rt; capacity_of(&[SMALL, SMALL, SMALL])?, 32_768);
    Ok(())
}

#[test]
fn a_key_names_its_levels_alone(rt: HostRuntime) -> Result<(), Fail> {
    for case in &HIERARCHIES {
        let items = levels_of(rt.alloc(), case.levels)?;
        let key = Key60::from_hex(case.public)?;
        assert!(rt; names(&items, &key)?);
        assert!(rt; !names(&[TEN], &key)?);
        assert!(rt; !names(&[TEN, TEN, TEN], &key)?);
        assert!(rt; !names(&[SMALL, SMALL, SMALL], &key)?);
    }
    let tall = Key60::from_hex(GIVEN_KEY)?;
    assert!(rt; !names(&[SMALL], &tall)?);
    Ok(())
}

#[test]
fn a_key_has_one_to_eight_levels_and_known_types(rt: HostRuntime) -> Result<(), Fail> {
    let given = Key60::from_hex(GIVEN_KEY)?;
    assert!(rt; is_key(&given));
    for (place, byte, good) in [
        (3, 1, true),
        (3, 8, true),
        (3, 0, false),
        (3, 9, false),
        (0, 1, false),
        (7, 4, false),
        (7, 9, true),
        (11, 5, false),
        (11, 1, true),
    ] {
        let mut key = given;
        key[place % 60] = byte;
        assert_eq!(rt; is_key(&key), good, "{place}");
    }
    Ok(())
}

#[test]
fn the_given_key_verifies_the_given_signature(rt: HostRuntime) -> Result<(), Fail> {
    let key = Key60::from_hex(GIVEN_KEY)?;
    let mut sig = hex::decode(rt.alloc(), GIVEN_SIGNATURE)?;
    assert!(rt; verifies(&key, b"", &sig));
    assert!(rt; !verifies(&key, b"a", &sig));
    for count in [0, 2, 9] {
        let mut other = key;
        other[3] = count;
        assert!(rt; !verifies(&other, b"", &sig), "{count}");
    }
    sig.push(0)?;
    assert!(rt; !verifies(&key, b"", &sig));
    assert!(rt; !verifies(&key, b"", &[]));
    Ok(())
}

#[test]
fn one_level_signs_its_last_index(rt: HostRuntime) -> Result<(), Fail> {
    let mut signer = signer_of(rt.alloc(), [9; 32], [7; 16], &[SMALL])?;
    assert_eq!(rt; signer.capacity(), 32);
    assert_eq!(rt; signer.prepared(), 0);
    let key = signer.public();
    let mut sig = signed(&rt, rt.alloc(), &mut signer, 31, b"a message")?;
    assert_eq!(rt; sig.len(), 1296);
    assert!(rt; verifies(&key, b"a message", &sig));
    assert!(rt; !verifies(&key, b"another message", &sig));
    let beyond = changed(&rt, rt.alloc(), &sig, 7, 32)?;
    assert!(rt; !verifies(&key, b"a message", &beyond));
    let deeper = changed(&rt, rt.alloc(), &sig, 3, 1)?;
    assert!(rt; !verifies(&key, b"a message", &deeper));
    sig.push(0)?;
    assert!(rt; !verifies(&key, b"a message", &sig));
    assert!(rt; sig.pop().is_some());
    assert!(rt; sig.pop().is_some());
    assert!(rt; !verifies(&key, b"a message", &sig));
    Ok(())
}

#[test]
fn two_levels_sign_1024_messages_in_2644_bytes(rt: HostRuntime) -> Result<(), Fail> {
    let mut signer = signer_of(rt.alloc(), [1; 32], [2; 16], &[SMALL, SMALL])?;
    assert_eq!(rt; signer.capacity(), 1024);
    let sig = signed(&rt, rt.alloc(), &mut signer, 1023, b"a message")?;
    assert_eq!(rt; sig.len(), 2644);
    Ok(())
}

#[test]
fn an_index_is_read_back_where_its_digits_carry(rt: HostRuntime) -> Result<(), Fail> {
    let mut signer = signer_of(rt.alloc(), [3; 32], [5; 16], &[SMALL, SMALL, SMALL])?;
    assert_eq!(rt; signer.capacity(), 32_768);
    let key = signer.public();
    for index in [0, 31, 32, 33, 1023, 1024, 1056, 32_767, 5] {
        let sig = signed(&rt, rt.alloc(), &mut signer, index, b"a message")?;
        assert_eq!(rt; index_of(&[SMALL, SMALL, SMALL], &sig)?, Some(index));
        assert_eq!(rt; index_of(&[SMALL, SMALL], &sig)?, None);
        assert!(rt; verifies(&key, b"a message", &sig));
    }
    Ok(())
}

#[test]
fn keys_and_signatures_equal_those_of_another_implementation(rt: HostRuntime) -> Result<(), Fail> {
    for case in &HIERARCHIES {
        equals(&rt, rt.alloc(), case)?;
    }
    Ok(())
}

fn equals(rt: &impl Abort, alloc: Global, case: &Hierarchy) -> Result<(), Fail> {
    let items = levels_of(alloc, case.levels)?;
    let message = hex::decode(alloc, case.message)?;
    let seed = Hash::from_hex(case.seed)?;
    let mut signer = signer_of(alloc, seed, <[u8; 16]>::from_hex(case.id)?, &items)?;
    let key = signer.public();
    assert_eq!(rt; key, Key60::from_hex(case.public)?);
    let sig = signed(rt, alloc, &mut signer, case.index, &message)?;
    assert_eq!(rt; sig.len(), case.len);
    assert_eq!(rt;
        Sha256::digest(sig.as_slice()),
        Hash::from_hex(case.digest)?
    );
    assert!(rt; verifies(&key, &message, &sig));
    assert_eq!(rt; index_of(&items, &sig)?, Some(case.index));
    Ok(())
}

fn levels_of(alloc: Global, codes: &[(u32, u32)]) -> Result<Vec<Level>, Fail> {
    let mut items = Vec::new(alloc);
    for (lms, ots) in codes {
        let lms = lms_type(*lms).ok_or("an unknown code")?;
        let ots = ots_type(*ots).ok_or("an unknown code")?;
        items.push(Level { lms, ots })?;
    }
    Ok(items)
}
