// What the plays of these tests are compared with.
use std::alloc::Global;
use std::process::Abort;
use std::test::Fail;
use test_plays::{Play, told_play};

/// The algorithm -46, spelled.
pub const ALG: &[u8] = &[0x38, 0x2d];

pub const MOMENT: u64 = 1_700_000_000;

/// What was told is what is wanted.
pub fn compare(rt: &impl Abort, text: &str, wanted: &str) {
    assert_eq!(rt; text, wanted);
}

/// The play is told so.
pub fn is_told(rt: &impl Abort, alloc: Global, play: &Play, wanted: &str) -> Result<(), Fail> {
    let text = told_play(alloc, play)?;
    compare(rt, text.as_str(), wanted);
    Ok(())
}
