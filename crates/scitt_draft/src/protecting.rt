// The protected string of a statement.

ghost use Rattle.std.specs.Prelude.{◌≡◌, ◌≤◌, ◌++◌, length, IfOk, OnOk, true};
ghost use Rattle.cbor_core.specs.Items.{uint_item, text_item, map_item};
ghost use Rattle.cbor_core.specs.Limits.{longest_string};
ghost use Rattle.scitt_draft.specs.Drafts.{claimed, names_fit as are_names_fit, moment_entry, claim_entries, protected_item as whole_protected, protected_by};

use crate::claims::Claims;
use crate::within::claims_are_within;
use cbor_core::{
    Bytes, EncodeStop, Item, Node, Text, strict_item_by_kind, strict_items_are_spelled,
    strict_len_by_kind, strict_text_is_exact,
};
use sqlite_items::Items;
use std::alloc::{AllocError, Global};

fn number(n: u64) -> Item
    ensures { result ≡ uint_item n }
{
    Item {
        node: Node::Uint(n),
    }
}

fn text(alloc: Global, text: &str) -> Result<Item, AllocError>
    ensures { IfOk result (λ item. item ≡ text_item text.now) }
{
    Ok(Item {
        node: Node::Text(Text::from_str(alloc, text)?),
    })
}

fn push_moment(
    pairs: &mut Items<(Item, Item)>,
    label: u64,
    moment: Option<u64>,
) -> Result<(), AllocError>
    ensures { OnOk result (pairs.new ≡ pairs.old ++ moment_entry label moment) }
{
    if let Some(moment) = moment {
        pairs.push((number(label), number(moment)))?;
    }
    Ok(())
}

fn claims_item(alloc: Global, claims: &Claims<'_>) -> Result<Item, AllocError>
    ensures { IfOk result (λ item. item ≡ map_item (claim_entries (claimed claims.now))) }
{
    let mut pairs = Items::new(alloc);
    pairs.push((number(1), text(alloc, claims.issuer)?))?;
    pairs.push((number(2), text(alloc, claims.subject)?))?;
    push_moment(&mut pairs, 4, claims.expires)?;
    push_moment(&mut pairs, 5, claims.not_before)?;
    Ok(Item {
        node: Node::Map(pairs),
    })
}

fn protected_item(alloc: Global, claims: &Claims<'_>, kid: &[u8]) -> Result<Item, AllocError>
    ensures { IfOk result (λ item. item ≡ whole_protected (claimed claims.now) kid.now) }
{
    let alg = Item {
        node: Node::Nint(45),
    };
    let kid = Item {
        node: Node::Bytes(Bytes::from_slice(alloc, kid)?),
    };
    let mut pairs = Items::new(alloc);
    pairs.push((number(1), alg))?;
    pairs.push((number(3), text(alloc, claims.content_type)?))?;
    pairs.push((number(4), kid))?;
    pairs.push((number(15), claims_item(alloc, claims)?))?;
    Ok(Item {
        node: Node::Map(pairs),
    })
}

/// The protected string of these claims under a key of this name: the strict bytes of its map (RFC 9052, 3.1).
pub fn protected_string(
    alloc: Global,
    claims: &Claims<'_>,
    kid: &[u8; 32],
) -> Result<Bytes, AllocError>
    requires { are_names_fit (claimed claims.now) ≡ true }
    ensures text { IfOk result (λ string. string ≡ protected_by (claimed claims.now) kid.now) }
    ensures short { IfOk result (λ string. length string ≤ 4000) }
{
    strict_item_by_kind();
    strict_len_by_kind();
    strict_items_are_spelled();
    strict_text_is_exact();
    claims_are_within(claims);
    let item = protected_item(alloc, claims, kid.as_slice())?;
    match cbor_core::encode(alloc, &item) {
        Ok(bytes) => Ok(bytes),
        Err(EncodeStop::OutOfMemory) => Err(AllocError),
        Err(EncodeStop::NotStrict) => unreachable!(),
    }
}
