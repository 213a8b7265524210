// Conditions, as items spell them.

ghost use Rattle.std.specs.Prelude.{◌≡◌, ℕ, ◌-◌, ◌<◌, [], IfOk, option_and_then};
ghost use Rattle.std.specs.Option.{option_copied};
ghost use Rattle.cbor_core.specs.declared.tree.Node.{out-Node};
ghost use Rattle.policy_rules.specs.Conditions.{number_in, text_in, only as only_operand, each_onto, text_operand, number_operand, no_operand, node_by, node_of_parts, cond_layer, cond_in};

use crate::conditions::{Cond, CondNode};
use cbor_core::{Item, Node, Text};
use sqlite_items::{Boxed, Items};
use std::alloc::{AllocError, Global};

pub(crate) fn number(node: &Node) -> Option<u64>
    ensures { result ≡ number_in (out-Node node.now) }
{
    match node {
        Node::Uint(n) => Some(*n),
        _ => None,
    }
}

fn only(operands: &[Item]) -> Option<&Item>
    ensures { option_copied result ≡ only_operand operands.now }
{
    match operands {
        [operand] => Some(operand),
        _ => None,
    }
}

fn number_alone(operands: &[Item]) -> Option<u64>
    ensures { result ≡ number_operand operands.now }
{
    match only(operands) {
        Some(operand) => number(&operand.node),
        None => None,
    }
}

fn text_copied(alloc: Global, node: &Node) -> Result<Option<Text>, AllocError>
    ensures { IfOk result (λ text. text ≡ text_in (out-Node node.now)) }
{
    match node {
        Node::Text(text) => Ok(Some(Text::from_str(alloc, text.as_str())?)),
        _ => Ok(None),
    }
}

fn text_alone(alloc: Global, operands: &[Item]) -> Result<Option<Text>, AllocError>
    ensures { IfOk result (λ text. text ≡ text_operand operands.now) }
{
    match only(operands) {
        Some(operand) => text_copied(alloc, &operand.node),
        None => Ok(None),
    }
}

fn none_alone(operands: &[Item]) -> Option<CondNode>
    ensures { result ≡ no_operand operands.now }
{
    match operands {
        [] => Some(CondNode::FirstOfSubject),
        _ => None,
    }
}

#[cycle(reading)]
fn conds_of(alloc: Global, depth: u8, items: &[Item]) -> Result<Option<Items<Cond>>, AllocError>
    ensures { IfOk result (λ conds. conds ≡ each_onto (cond_in depth) [] items.now) }
{
    let mut conds = Items::new(alloc);
    for item in items {
        match cond_of(alloc, depth, item)? {
            Some(cond) => conds.push(cond)?,
            None => return Ok(None),
        }
    }
    Ok(Some(conds))
}

#[cycle(reading)]
fn not_of(alloc: Global, depth: u8, operands: &[Item]) -> Result<Option<Boxed<Cond>>, AllocError>
    ensures { IfOk result (λ cond. cond ≡ option_and_then (cond_in depth) (only_operand operands.now)) }
{
    let Some(operand) = only(operands) else {
        return Ok(None);
    };
    match cond_of(alloc, depth, operand)? {
        Some(cond) => Ok(Some(Boxed::new(alloc, cond)?)),
        None => Ok(None),
    }
}

#[cycle(reading)]
fn node_of(
    alloc: Global,
    depth: u8,
    code: u64,
    operands: &[Item],
) -> Result<Option<CondNode>, AllocError>
    ensures { IfOk result (λ node. node ≡ node_by (cond_in depth) code operands.now) }
{
    Ok(match code {
        0 => conds_of(alloc, depth, operands)?.map(CondNode::All),
        1 => conds_of(alloc, depth, operands)?.map(CondNode::Any),
        2 => not_of(alloc, depth, operands)?.map(CondNode::Not),
        3 => text_alone(alloc, operands)?.map(CondNode::Issuer),
        4 => text_alone(alloc, operands)?.map(CondNode::SubjectPrefix),
        5 => text_alone(alloc, operands)?.map(CondNode::ContentType),
        6 => number_alone(operands).map(CondNode::PayloadAtMost),
        7 => none_alone(operands),
        8 => number_alone(operands).map(CondNode::CountBelow),
        9 => text_alone(alloc, operands)?.map(CondNode::Prior),
        _ => None,
    })
}

#[cycle(reading)]
fn layer_of(alloc: Global, depth: u8, node: &Node) -> Result<Option<Cond>, AllocError>
    ensures { IfOk result (λ cond. cond ≡ cond_layer (cond_in depth) (out-Node node.now)) }
{
    let Node::Array(items) = node else {
        return Ok(None);
    };
    let Some((code, operands)) = items.as_slice().split_first() else {
        return Ok(None);
    };
    let Some(code) = number(&code.node) else {
        return Ok(None);
    };
    match node_of(alloc, depth, code, operands)? {
        Some(node) => Ok(Some(Cond { node })),
        None => Ok(None),
    }
}

/// The condition that an item spells, at most so many deep.
#[cycle(reading)]
pub(crate) fn cond_of(alloc: Global, depth: u8, item: &Item) -> Result<Option<Cond>, AllocError>
    ensures { IfOk result (λ cond. cond ≡ cond_in depth item.now) }
{
    if depth == 0 {
        return Ok(None);
    }
    layer_of(alloc, depth - 1, &item.node)
}
