ghost use Rattle.std.specs.Prelude.{◌≡◌, [], ◌∷◌, ◌++◌, IfOk, OnOk, true, false};
ghost use Rattle.cbor_core.specs.Bytes.{is_below};
ghost use Rattle.cbor_core.specs.Tree.{is_key};
ghost use Rattle.cbor_core.specs.Spells.{is_strict as strict_grammar, key_row};
ghost use Rattle.cbor_core.specs.Order.{IsSpelled, KeySpelled, Ordered};
ghost use Rattle.cbor_feed.specs.Keys.{OrderedWith};

use crate::containers::is_strict;
use cbor_core::{Grammar, Item, Why, below, has_key, is_known, read_keys_are_spelled};
use sqlite_items::Items;
use std::alloc::{AllocError, Global};
use std::marker::Model;

/// The pairs of a map under work, that contracts see as the list of them. Beside them it keeps the places of their keys in order, and the
/// number of containers that may be opened inside the map.
#[derive(Drop)]
pub struct KeyedPairs {
    pairs: Items<(Item, Item)>,
    order: Vec<u16>,
    room: u8,
}

impl Model for KeyedPairs {
    ghost use Rattle.std.specs.Prelude.{List};
    ghost use Rattle.std.specs.Coded.{coded_list, coded×};
    ghost use Rattle.cbor_core.specs.Order.{Ordered};
    ghost use Rattle.cbor_core.specs.declared.tree.Item.{Item};
    ghost use Rattle.cbor_core.specs.contracts.tree.Item as item;

    ghost Value = { List (Item × Item) };

    ghost coded = { coded_list (coded× item.the_row.coded item.the_row.coded) };

    ghost view = { λ p. p.pairs };

    ghost invariant = { λ p. Ordered p.room p.pairs p.order.items };
}

/// The pairs of a map under work, and the key behind them whose value is to come, that contracts see as these two. The key has its place in
/// the order.
#[derive(Drop)]
pub struct PairsWithKey {
    pairs: Items<(Item, Item)>,
    key: Item,
    order: Vec<u16>,
    room: u8,
}

impl Model for PairsWithKey {
    ghost use Rattle.std.specs.Prelude.{List};
    ghost use Rattle.std.specs.Coded.{coded_list, coded×};
    ghost use Rattle.cbor_core.specs.declared.tree.Item.{Item};
    ghost use Rattle.cbor_core.specs.contracts.tree.Item as item;
    ghost use Rattle.cbor_feed.specs.Keys.{OrderedWith};

    ghost Value = { List (Item × Item) × Item };

    ghost coded = { coded× (coded_list (coded× item.the_row.coded item.the_row.coded)) item.the_row.coded };

    ghost view = { λ p. (p.pairs, p.key) };

    ghost invariant = { λ p. OrderedWith p.room p.pairs p.key p.order.items };
}

impl KeyedPairs {
    /// No pairs of a map inside which so many containers may be opened.
    pub fn new(alloc: Global, room: u8) -> KeyedPairs
        ensures { result ≡ [] }
    {
        read_keys_are_spelled();
        KeyedPairs {
            pairs: Items::new(alloc),
            order: Vec::new(alloc),
            room,
        }
    }

    /// The pairs with a key behind them, and what is wrong with it.
    pub fn with_key(
        self,
        g: Grammar,
        room: u8,
        last: &[u8],
        key: Item,
        text: &[u8],
    ) -> Result<(PairsWithKey, Option<Why>), AllocError>
        requires fresh { strict_grammar g ≡ true → is_below last.now text.now ≡ true → is_key self key ≡ false }
        requires spelled { KeySpelled g room key }
        ensures pairs { IfOk result (λ x. x.0 ≡ (self, key)) }
        ensures why { IfOk result (λ x. x.1 ≡ key_row g self last.now key text.now) }
    {
        let KeyedPairs {
            pairs,
            order,
            room: kept,
        } = self;
        let mut order = order;
        let why = key_why(
            g,
            kept,
            room,
            pairs.as_slice(),
            &mut order,
            last,
            &key,
            text,
        )?;
        let pairs = PairsWithKey {
            pairs,
            key,
            order,
            room: kept,
        };
        Ok((pairs, why))
    }

    /// The pairs as the parts of a map.
    pub fn into_items(self) -> Items<(Item, Item)>
        ensures { result ≡ self }
    {
        let KeyedPairs { pairs, .. } = self;
        pairs
    }
}

impl PairsWithKey {
    /// The pairs with the one of this key behind them.
    pub fn with_value(self, value: Item) -> Result<KeyedPairs, AllocError>
        ensures { IfOk result (λ pairs. pairs ≡ self.0 ++ (self.1, value) ∷ []) }
    {
        let PairsWithKey {
            pairs,
            key,
            order,
            room,
        } = self;
        let mut pairs = pairs;
        pairs.push((key, value))?;
        Ok(KeyedPairs { pairs, order, room })
    }
}

// Whether one of the pairs has this key, which is put into their order where none has. They are in order for so many containers inside a key
// as are kept: for another number each key is looked at.
fn is_among(
    kept: u8,
    room: u8,
    pairs: &[(Item, Item)],
    order: &mut Vec<u16>,
    key: &Item,
) -> Result<bool, AllocError>
    requires order { Ordered kept pairs.now order.old.items }
    requires key { IsSpelled room key.now }
    ensures known { IfOk result (λ known. known ≡ is_key pairs.now key.now) }
    ensures order { OnOk result (OrderedWith kept pairs.now key.now order.new.items) }
{
    read_keys_are_spelled();
    if room != kept {
        return Ok(has_key(pairs, key));
    }
    is_known(room, pairs, order, key)
}

// What is wrong with a key behind these pairs. In strict a key above the last one is no earlier one, so it is looked for only where it
// isn't above. In wide it is looked for among all, by their order.
fn key_why(
    g: Grammar,
    kept: u8,
    room: u8,
    pairs: &[(Item, Item)],
    order: &mut Vec<u16>,
    last: &[u8],
    key: &Item,
    text: &[u8],
) -> Result<Option<Why>, AllocError>
    requires fresh { strict_grammar g ≡ true → is_below last.now text.now ≡ true → is_key pairs.now key.now ≡ false }
    requires spelled { KeySpelled g room key.now }
    requires order { Ordered kept pairs.now order.old.items }
    ensures row { IfOk result (λ why. why ≡ key_row g pairs.now last.now key.now text.now) }
    ensures order { OnOk result (OrderedWith kept pairs.now key.now order.new.items) }
{
    read_keys_are_spelled();
    if is_strict(g) {
        if below(last, text) {
            return Ok(None);
        }
        if has_key(pairs, key) {
            return Ok(Some(Why::DupKey));
        }
        return Ok(Some(Why::KeyOrder));
    }
    if is_among(kept, room, pairs, order, key)? {
        return Ok(Some(Why::DupKey));
    }
    Ok(None)
}
