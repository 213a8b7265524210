use super::statements::{receipt, trust_of};
use super::vectors::{GROWTH, SIGNATURE, SIGNATURE_OF_FOUR};
use merkle_tree::Hash;
use relying_party::{ConsistencyResult, verify_consistency};
use std::alloc::Global;
use std::test::Fail;

fn hash_of(alloc: Global, text: &str) -> Result<Hash, Fail> {
    let bytes = hex::decode(alloc, text)?;
    match bytes.as_slice().as_array::<32>() {
        Some(hash) => Ok(*hash),
        None => Err("no hash".into()),
    }
}

fn result_text(alloc: Global, answer: &ConsistencyResult) -> Result<String, Fail> {
    let text = match answer {
        ConsistencyResult::Consistent { size, root } => {
            let root = hex::encode(alloc, root.as_slice())?;
            format!(in alloc; "consistent {size} {root}")?
        }
        ConsistencyResult::Refused(rule) => format!(in alloc; "refused {rule}")?,
    };
    Ok(text)
}

#[test]
fn consistency_receipts_are_accepted_and_refused_so(rt: HostRuntime) -> Result<(), Fail> {
    let alloc = rt.alloc();
    let trust = trust_of(alloc, "80")?;
    for row in GROWTH {
        let (signed, rest) = row.split_once("|").ok_or("no bar")?;
        let (protected, rest) = rest.split_once("|").ok_or("no bar")?;
        let (unprotected, rest) = rest.split_once("|").ok_or("no bar")?;
        let (old, rest) = rest.split_once("|").ok_or("no bar")?;
        let (root, wanted) = rest.split_once("|").ok_or("no bar")?;
        let old = old.parse::<u32>().map_err(|_| "no number")?;
        let root = hash_of(alloc, root)?;
        let signature = if signed == "2" {
            SIGNATURE
        } else {
            SIGNATURE_OF_FOUR
        };
        let text = receipt(alloc, protected, unprotected, signature)?;
        let bytes = hex::decode(alloc, text.as_str())?;
        let result = verify_consistency(alloc, &trust, bytes.as_slice(), old, &root)?;
        let text = result_text(alloc, &result)?;
        assert_eq!(rt; text.as_str(), wanted, "{row}");
    }
    Ok(())
}
