// Messages that are slow to judge are judged within a test's time.

use super::hostile_vectors::{CRITS, LABELS};
use super::messages::said;
use cose_sign1::decode;
use std::test::Fail;

#[test]
fn many_labels_stand_in_both_maps(rt: HostRuntime) -> Result<(), Fail> {
    let alloc = rt.alloc();
    for line in LABELS {
        let (input, wanted) = line.split_once('|').ok_or("no answer")?;
        let bytes = hex::decode(alloc, input)?;
        let text = said(alloc, &decode(alloc, bytes.as_slice()))?;
        assert_eq!(rt; text.as_str(), wanted);
    }
    Ok(())
}

#[test]
fn crit_lists_many_labels(rt: HostRuntime) -> Result<(), Fail> {
    let alloc = rt.alloc();
    for line in CRITS {
        let (input, wanted) = line.split_once('|').ok_or("no answer")?;
        let bytes = hex::decode(alloc, input)?;
        let text = said(alloc, &decode(alloc, bytes.as_slice()))?;
        assert_eq!(rt; text.as_str(), wanted);
    }
    Ok(())
}
