ghost use Rattle.std.specs.Prelude.{◌≡◌, ◌≤◌, IfOk, length};
ghost use Rattle.cbor_core.specs.Order.{KeySpelled};
ghost use Rattle.cbor_feed.specs.Frames.{items_step as step_of_items, pairs_step as step_of_pairs, key_step as step_of_key, taken, span_in, IsFresh, IsFreshIn, IsIn, AreIn};

use crate::keys::{KeyedPairs, PairsWithKey};
use cbor_core::{Grammar, Item, Node, Why};
use sqlite_items::{Boxed, Items};
use std::alloc::{AllocError, Global};

/// Some of the bytes, by where they begin and where they end.
#[derive(Clone, Copy)]
pub struct Span {
    pub from: usize,
    pub to: usize,
}

/// The parts that a container has so far, behind how many are to come after the next one.
#[derive(Drop)]
pub enum Parts {
    /// An array's items.
    Items(u64, Items<Item>),
    /// A map's pairs and where the last key is spelled. The next part is a key.
    Key(u64, KeyedPairs, Span),
    /// A map's pairs and the key behind them, and where it is spelled. The next part is its value.
    Value(u64, PairsWithKey, Span),
    /// A tag's number: the next part is what it tags.
    Tag(u64),
}

/// A container under work, and where its next part begins.
#[derive(Drop)]
pub struct Frame {
    pub start: usize,
    pub parts: Parts,
}

/// What becomes of a container that is handed its next part.
#[derive(Drop)]
pub enum Step {
    /// It wants another one.
    Goes(Frame),
    /// It is whole.
    Whole(Item),
    /// The part is no key behind the keys so far.
    Stuck(Why),
}

fn items_step(left: u64, items: Items<Item>, end: usize) -> Step
    ensures { result ≡ step_of_items left items end }
{
    if left == 0 {
        return Step::Whole(Item {
            node: Node::Array(items),
        });
    }
    Step::Goes(Frame {
        start: end,
        parts: Parts::Items(left - 1, items),
    })
}

fn pairs_step(left: u64, pairs: KeyedPairs, text: Span, end: usize) -> Step
    ensures { result ≡ step_of_pairs left pairs text end }
{
    if left == 0 {
        return Step::Whole(Item {
            node: Node::Map(pairs.into_items()),
        });
    }
    Step::Goes(Frame {
        start: end,
        parts: Parts::Key(left - 1, pairs, text),
    })
}

fn span_of(bytes: &[u8], span: Span) -> &[u8]
    requires { IsIn span bytes.now }
    ensures { result.now ≡ span_in bytes.now span }
{
    &bytes[span.from..span.to]
}

fn key_step(
    g: Grammar,
    room: u8,
    held: &[u8],
    left: u64,
    pairs: KeyedPairs,
    last: Span,
    key: Item,
    text: Span,
) -> Result<Step, AllocError>
    requires last { IsIn last held.now }
    requires text { IsIn text held.now }
    requires fresh { IsFresh g held.now pairs last key text }
    requires spelled { KeySpelled g room key }
    ensures { IfOk result (λ step. step ≡ step_of_key g held.now left pairs last key text) }
{
    let (pairs, why) = pairs.with_key(g, room, span_of(held, last), key, span_of(held, text))?;
    match why {
        Some(why) => Ok(Step::Stuck(why)),
        None => Ok(Step::Goes(Frame {
            start: text.to,
            parts: Parts::Value(left, pairs, text),
        })),
    }
}

/// Hands a container its next part, which ends there. So many containers may be opened inside it.
pub fn frame_with(
    alloc: Global,
    g: Grammar,
    room: u8,
    held: &[u8],
    frame: Frame,
    item: Item,
    end: usize,
) -> Result<Step, AllocError>
    requires start { frame.start ≤ end }
    requires end { end ≤ length held.now }
    requires spans { AreIn frame.parts held.now }
    requires fresh { IsFreshIn g held.now frame item end }
    requires spelled { KeySpelled g room item }
    ensures { IfOk result (λ step. step ≡ taken g held.now frame item end) }
{
    let Frame { start, parts } = frame;
    match parts {
        Parts::Items(left, items) => {
            let mut items = items;
            items.push(item)?;
            Ok(items_step(left, items, end))
        }
        Parts::Key(left, pairs, last) => {
            let text = Span {
                from: start,
                to: end,
            };
            key_step(g, room, held, left, pairs, last, item, text)
        }
        Parts::Value(left, pairs, text) => {
            let pairs = pairs.with_value(item)?;
            Ok(pairs_step(left, pairs, text, end))
        }
        Parts::Tag(n) => {
            let item = Boxed::new(alloc, item)?;
            Ok(Step::Whole(Item {
                node: Node::Tag(n, item),
            }))
        }
    }
}
