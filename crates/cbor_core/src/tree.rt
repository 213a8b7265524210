ghost use Rattle.std.specs.Prelude.{◌≡◌, [], ◌∷◌, ◌++◌, length, OnOk, OnErr};

use crate::strings::{Bytes, Text};
use sqlite_items::{Boxed, Items};
use std::alloc::{AllocError, Global};
use std::marker::Model;

/// A CBOR item (RFC 8949, 3). Contracts see it as a plain tree.
#[cycle(item)]
#[derive(Drop)]
pub struct Item {
    pub node: Node,
}

/// The kinds of item.
#[cycle(item)]
#[derive(Drop)]
pub enum Node {
    /// An unsigned number (major type 0).
    Uint(u64),
    /// The number -1 - n (major type 1).
    Nint(u64),
    /// A byte string (major type 2).
    Bytes(Bytes),
    /// A text (major type 3).
    Text(Text),
    /// An array (major type 4).
    Array(Items<Item>),
    /// A map, its pairs in the order in which they are spelled (major type 5).
    Map(Items<(Item, Item)>),
    /// A tagged item (major type 6).
    Tag(u64, Boxed<Item>),
    /// A simple value (major type 7, RFC 8949, 3.3).
    Simple(u8),
    /// A float: its width in bytes, which is 2, 4 or 8, and its bits (major type 7, RFC 8949, 3.3).
    Float(u8, u64),
}

/// The pairs of a map under work, that contracts see as the list of them.
#[derive(Drop)]
pub struct Pairs {
    pairs: Items<(Item, Item)>,
}

impl Model for Pairs {
    ghost use Rattle.std.specs.Prelude.{List};
    ghost use Rattle.std.specs.Coded.{coded_list, coded×};
    ghost use Rattle.cbor_core.specs.declared.tree.Item.{Item};
    ghost use Rattle.cbor_core.specs.contracts.tree.Item as item;

    ghost Value = { List (Item × Item) };

    ghost coded = { coded_list (coded× item.the_row.coded item.the_row.coded) };

    ghost view = { λ p. p.pairs };
}

impl Pairs {
    /// No pairs.
    pub fn new(alloc: Global) -> Pairs
        ensures { result ≡ [] }
    {
        Pairs {
            pairs: Items::new(alloc),
        }
    }

    /// The parts of a map as pairs, none of them moved.
    pub fn from_items(items: Items<(Item, Item)>) -> Pairs
        ensures { result ≡ items }
    {
        Pairs { pairs: items }
    }

    /// The pairs.
    pub fn as_slice(&self) -> &[(Item, Item)]
        ensures { result.now ≡ self.now }
    {
        self.pairs.as_slice()
    }

    /// How many pairs there are.
    pub fn len(&self) -> usize
        ensures { result ≡ length self.now }
    {
        self.pairs.len()
    }

    /// Adds a pair at the end. Without memory the pairs stay as they were.
    pub fn push(&mut self, key: Item, value: Item) -> Result<(), AllocError>
        ensures ok { OnOk result (self.new ≡ self.old ++ (key, value) ∷ []) }
        ensures err { OnErr result (self.new ≡ self.old) }
    {
        self.pairs.push((key, value))?;
        Ok(())
    }

    /// The pairs as the parts of a map.
    pub fn into_items(self) -> Items<(Item, Item)>
        ensures { result ≡ self }
    {
        let Pairs { pairs } = self;
        pairs
    }
}
