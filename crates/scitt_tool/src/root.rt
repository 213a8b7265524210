ghost use Rattle.std.specs.Prelude.{◌≡◌, ◌≢◌, ◌≤◌, ℕ, List, length, map, IfOk, MatchOption};
ghost use Rattle.std.specs.String.{string_bytes};
ghost use Rattle.cbor_core.specs.declared.words.Grammar.TheVariants.{Strict};
ghost use Rattle.cbor_core.specs.Spells.{Spells};
ghost use Rattle.cose_sign1.specs.Tbs.{byte_item};
ghost use Rattle.scitt_tool.specs.Root.{RootOf, root_lines, strings_item, HoldsItems, HoldsStrings};

use crate::fault::refused_cbor;
use cbor_core::{DecodeStop, Item, Node, decode_strict_all};
use command_line::Answer;
use merkle_tree::{Frontier, Hash, leaf_hash};
use std::alloc::{AllocError, Global};

/// What `root` answers of a file's bytes.
pub(crate) fn root(alloc: Global, bytes: &[u8]) -> Result<Answer, AllocError>
    ensures { IfOk result (RootOf bytes.now) }
{
    match decode_strict_all(alloc, bytes) {
        Ok(item) => root_of(alloc, &item),
        Err(DecodeStop::Fault(fault)) => refused_cbor(alloc, fault),
        Err(DecodeStop::OutOfMemory) => Err(AllocError),
    }
}

/// What `root` answers of an item that some bytes strictly spell.
fn root_of(alloc: Global, item: &Item) -> Result<Answer, AllocError>
    requires { (bytes : List ℕ) × Spells Strict item.now bytes }
    ensures { IfOk result (λ answer. (bytes : List ℕ) → Spells Strict item.now bytes → RootOf bytes answer) }
{
    let Some(frontier) = frontier_of(item) else {
        return Ok(Answer::fixed(1, "refused shape\n"));
    };
    let text = lines(alloc, frontier.size(), &frontier.root())?;
    Ok(Answer::made(0, text))
}

/// The tree over an array of byte strings, and none over another item.
fn frontier_of(item: &Item) -> Option<Frontier>
    requires { (bytes : List ℕ) × Spells Strict item.now bytes }
    ensures { MatchOption result ((strings : List (List ℕ)) → item.now ≢ strings_item strings) (HoldsStrings item.now) }
{
    let Node::Array(items) = &item.node else {
        return None;
    };
    leaves_of(items.as_slice())
}

/// The tree over items that are byte strings, and none where another stands among them.
fn leaves_of(items: &[Item]) -> Option<Frontier>
    requires { length items.now ≤ 4096 }
    ensures { MatchOption result ((strings : List (List ℕ)) → items.now ≢ map byte_item strings) (HoldsItems items.now) }
{
    let mut frontier = Frontier::new();
    for item in items {
        let Node::Bytes(bytes) = &item.node else {
            return None;
        };
        frontier.push(leaf_hash(bytes.as_slice()));
    }
    Some(frontier)
}

fn lines(alloc: Global, size: u32, root: &Hash) -> Result<String, AllocError>
    ensures { IfOk result (λ text. string_bytes text ≡ root_lines size root.now) }
{
    let root = hex::encode(alloc, root.as_slice())?;
    let text = format!(in alloc; "size {size}\nroot {root}\n")?;
    Ok(text)
}
