ghost use Rattle.std.specs.Prelude.{◌≡◌, ◌++◌, IfOk, codes};
ghost use Rattle.std.specs.String.{string_bytes};
ghost use Rattle.scitt_tool.specs.Answer.{line};
ghost use Rattle.scitt_tool.specs.Consistent.{ConsistentOf, result_answer, growth_text, size_named as size_of_word, root_named as root_of_word};

use crate::lines::push_line;
use crate::numbers::number_upto;
use command_line::Answer;
use hex::FromHex;
use merkle_tree::Hash;
use relying_party::{ConsistencyResult, Trust, TrustStop, verify_consistency};
use std::alloc::{AllocError, Global};

/// The greatest size of a tree.
const LARGEST: u64 = 4_294_967_295;

/// The size that a word says.
pub(crate) fn size_named(text: &str) -> Option<u32>
    ensures { result ≡ size_of_word text.now }
{
    match number_upto(text, LARGEST) {
        Some(size) => Some(size as u32),
        None => None,
    }
}

/// The root that a word says.
pub(crate) fn root_named(text: &str) -> Option<Hash>
    ensures { result ≡ root_of_word text.now }
{
    <[u8; 32] as FromHex>::from_hex(text).ok()
}

/// What `consistent` answers of a trust file's bytes and a receipt's, after an older size and root.
pub(crate) fn consistent(
    alloc: Global,
    trust: &[u8],
    receipt: &[u8],
    size: u32,
    root: &Hash,
) -> Result<Answer, AllocError>
    ensures { IfOk result (ConsistentOf trust.now receipt.now size root.now) }
{
    match Trust::decode(alloc, trust) {
        Ok(trust) => {
            let growth = verify_consistency(alloc, &trust, receipt, size, root)?;
            result_answer(alloc, &growth)
        }
        Err(TrustStop::Cbor(_)) => Ok(Answer::fixed(1, "refused trust\n")),
        Err(TrustStop::BadTrust) => Ok(Answer::fixed(1, "refused trust\n")),
        Err(TrustStop::OutOfMemory) => Err(AllocError),
    }
}

fn growth_text(alloc: Global, size: u32, root: &Hash) -> Result<String, AllocError>
    ensures { IfOk result (λ text. string_bytes text ≡ growth_text size root.now) }
{
    let root = hex::encode(alloc, root.as_slice())?;
    let text = format!(in alloc; "{size} {root}")?;
    Ok(text)
}

fn growth_line(alloc: Global, size: u32, root: &Hash) -> Result<String, AllocError>
    ensures { IfOk result (λ text. string_bytes text ≡ line (codes "consistent " ++ growth_text size root.now)) }
{
    let growth = growth_text(alloc, size, root)?;
    let mut text = String::new(alloc);
    push_line(&mut text, "consistent ", growth.as_str())?;
    Ok(text)
}

fn result_answer(alloc: Global, growth: &ConsistencyResult) -> Result<Answer, AllocError>
    ensures { IfOk result (λ answer. answer ≡ result_answer growth.now) }
{
    match growth {
        ConsistencyResult::Consistent { size, root } => {
            let text = growth_line(alloc, *size, root)?;
            Ok(Answer::made(0, text))
        }
        ConsistencyResult::Refused(rule) => {
            let text = format!(in alloc; "refused rule {rule}\n")?;
            Ok(Answer::made(1, text))
        }
    }
}
