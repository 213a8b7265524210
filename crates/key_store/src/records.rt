// The records of a key file, read and written.
ghost use Rattle.std.specs.Prelude.{◌≡◌, ◌∷◌, ◌++◌, ◌<◌, ◌≤◌, ℕ, [], length, map, option_and_then, IfOk, IfSome, Some, None, true};
ghost use Rattle.lms_tree.specs.Types.{lms_type_of_code};
ghost use Rattle.lms_ots.specs.Parameters.{type_of_code};
ghost use Rattle.cbor_core.specs.Decoding.{strict_item};
ghost use Rattle.cbor_core.specs.Items.{uint_item, bytes_item, array_item};
ghost use Rattle.cbor_core.specs.Limits.{most_containers};
ghost use Rattle.cbor_core.specs.Fitting.{is_strict_item, strict_len};
ghost use Rattle.key_store.specs.Records as words;
ghost use Rattle.key_store.specs.Records.{IsHead};

use cbor_core::{
    Bytes, Item, Node, array_of, bytes_of, encode_into, encoded_len, is_uint, strict_item_by_kind,
    strict_item_is_exact, strict_items_are_spelled, strict_len_by_kind, strict_of,
    strict_spelling_is_unique, uint_of,
};
use hss_keys::{Level, Levels, LmsType, OtsType, lms_type, ots_type};
use lms_ots::Hash;
use sqlite_items::Items;
use std::alloc::{AllocError, Global};

/// What an issuer's key is made from, as a key file's first record says.
#[derive(Drop)]
pub struct KeyHead {
    /// The seed of 32 bytes.
    pub seed: Hash,
    /// The identifier of the top tree.
    pub id: [u8; 16],
    /// The levels of trees, from the top down.
    pub levels: Levels,
    /// How many indices are reserved at once, 1 to 64.
    pub block: u32,
}

fn lms_by(code: u64) -> Option<LmsType>
    ensures { result ≡ lms_type_of_code code }
{
    lms_type(u32::try_from(code).ok()?)
}

fn ots_by(code: u64) -> Option<OtsType>
    ensures { result ≡ type_of_code code }
{
    ots_type(u32::try_from(code).ok()?)
}

fn level_by(lms: u64, ots: u64) -> Option<Level>
    ensures { result ≡ words.level_by lms ots }
{
    let lms = lms_by(lms)?;
    let ots = ots_by(ots)?;
    Some(Level { lms, ots })
}

fn level_of_parts(parts: &[Item]) -> Option<Level>
    ensures { result ≡ words.level_of_parts parts.now }
{
    match parts {
        [lms, ots] => {
            let lms = uint_of(lms)?;
            let ots = uint_of(ots)?;
            level_by(lms, ots)
        }
        _ => None,
    }
}

fn level_of(item: &Item) -> Option<Level>
    ensures { result ≡ words.level_in item.now }
{
    level_of_parts(array_of(item)?)
}

fn upto_of_parts(parts: &[Item]) -> Option<u64>
    ensures { result ≡ words.upto_of_parts parts.now }
{
    match parts {
        [kind, upto] => {
            if is_uint(1, kind) {
                uint_of(upto)
            } else {
                None
            }
        }
        _ => None,
    }
}

fn upto_of_item(item: &Item) -> Option<u64>
    ensures { result ≡ words.upto_in item.now }
{
    upto_of_parts(array_of(item)?)
}

fn kept_levels(items: &[Level]) -> Option<Levels>
    ensures { result ≡ words.kept_levels items.now }
{
    Levels::of(items)
}

fn levels_of_parts(parts: &[Item]) -> Option<Levels>
    ensures { result ≡ option_and_then words.kept_levels (words.levels_of parts.now) }
{
    match parts {
        [one] => kept_levels(&[level_of(one)?]),
        [one, two] => kept_levels(&[level_of(one)?, level_of(two)?]),
        [one, two, three] => kept_levels(&[level_of(one)?, level_of(two)?, level_of(three)?]),
        _ => None,
    }
}

fn levels_of(item: &Item) -> Option<Levels>
    ensures { result ≡ words.levels_in item.now }
{
    levels_of_parts(array_of(item)?)
}

fn seed_of(item: &Item) -> Option<Hash>
    ensures { result ≡ words.sized_in 32 item.now }
{
    let bytes = bytes_of(item)?;
    if bytes.len() != 32 {
        return None;
    }
    let mut seed = [0; 32];
    seed.copy_from_slice(bytes);
    Some(seed)
}

fn id_of(item: &Item) -> Option<[u8; 16]>
    ensures { result ≡ words.sized_in 16 item.now }
{
    let bytes = bytes_of(item)?;
    if bytes.len() != 16 {
        return None;
    }
    let mut id = [0; 16];
    id.copy_from_slice(bytes);
    Some(id)
}

fn block_of(item: &Item) -> Option<u32>
    ensures value { result ≡ words.block_in item.now }
    ensures limits { IfSome result (λ block. (1 ≤ block) × (block ≤ 64)) }
{
    let block = uint_of(item)?;
    if block >= 1 && block <= 64 {
        Some(block as u32)
    } else {
        None
    }
}

fn head_from(seed: &Item, id: &Item, levels: &Item, block: &Item) -> Option<KeyHead>
    ensures value { result ≡ words.head_from
        (words.sized_in 32 seed.now) (words.sized_in 16 id.now) (words.levels_in levels.now) (words.block_in block.now) }
    ensures limits { IfSome result IsHead }
{
    let seed = seed_of(seed)?;
    let id = id_of(id)?;
    let levels = levels_of(levels)?;
    let block = block_of(block)?;
    let _limits = levels.as_slice();
    Some(KeyHead {
        seed,
        id,
        levels,
        block,
    })
}

fn head_of_parts(parts: &[Item]) -> Option<KeyHead>
    ensures value { result ≡ words.head_of_parts parts.now }
    ensures limits { IfSome result IsHead }
{
    match parts {
        [kind, version, seed, id, levels, block] => {
            if is_uint(0, kind) && is_uint(1, version) {
                head_from(seed, id, levels, block)
            } else {
                None
            }
        }
        _ => None,
    }
}

fn head_of_item(item: &Item) -> Option<KeyHead>
    ensures value { result ≡ words.head_in item.now }
    ensures limits { IfSome result IsHead }
{
    head_of_parts(array_of(item)?)
}

/// What the body of a key file's first record says, if it is one.
#[tactic(auto, unfolding(crate::specs::Records::head_of))]
pub fn head_of(alloc: Global, body: &[u8]) -> Result<Option<KeyHead>, AllocError>
    ensures value { IfOk result (λ head. head ≡ words.head_of body.now) }
    ensures limits { IfOk result (λ head. IfSome head IsHead) }
{
    match strict_of(alloc, body)? {
        Some(item) => Ok(head_of_item(&item)),
        None => Ok(None),
    }
}

/// The number of indices that the body of a later record reserves, if it is a reservation.
#[tactic(auto, unfolding(crate::specs::Records::upto_of))]
pub fn upto_of(alloc: Global, body: &[u8]) -> Result<Option<u64>, AllocError>
    ensures { IfOk result (λ upto. upto ≡ words.upto_of body.now) }
{
    match strict_of(alloc, body)? {
        Some(item) => Ok(upto_of_item(&item)),
        None => Ok(None),
    }
}

fn number(n: u64) -> Item
    ensures { result ≡ uint_item n }
{
    Item {
        node: Node::Uint(n),
    }
}

fn string(alloc: Global, bytes: &[u8]) -> Result<Item, AllocError>
    ensures { IfOk result (λ item. item ≡ bytes_item bytes.now) }
{
    Ok(Item {
        node: Node::Bytes(Bytes::from_slice(alloc, bytes)?),
    })
}

fn array(items: Items<Item>) -> Item
    ensures { result ≡ array_item items }
{
    Item {
        node: Node::Array(items),
    }
}

fn level_item(alloc: Global, level: Level) -> Result<Item, AllocError>
    ensures { IfOk result (λ item. item ≡ words.level_item level) }
{
    let mut items = Items::new(alloc);
    items.push(number(u64::from(level.lms.parameters().code)))?;
    items.push(number(u64::from(level.ots.parameters().code)))?;
    Ok(array(items))
}

fn level_items(alloc: Global, levels: &[Level]) -> Result<Items<Item>, AllocError>
    ensures { IfOk result (λ items. items ≡ map words.level_item levels.now) }
{
    let mut items = Items::new(alloc);
    for level in levels {
        items.push(level_item(alloc, *level)?)?;
    }
    Ok(items)
}

fn head_item(alloc: Global, head: &KeyHead) -> Result<Item, AllocError>
    ensures { IfOk result (λ item. item ≡ words.head_item head.now) }
{
    let levels = level_items(alloc, head.levels.as_slice())?;
    let mut items = Items::new(alloc);
    items.push(number(0))?;
    items.push(number(1))?;
    items.push(string(alloc, &head.seed)?)?;
    items.push(string(alloc, &head.id)?)?;
    items.push(array(levels))?;
    items.push(number(u64::from(head.block)))?;
    Ok(array(items))
}

fn upto_item(alloc: Global, upto: u64) -> Result<Item, AllocError>
    ensures { IfOk result (λ item. item ≡ words.upto_item upto) }
{
    let mut items = Items::new(alloc);
    items.push(number(1))?;
    items.push(number(upto))?;
    Ok(array(items))
}

// The strict bytes of an item that has some, and not many.
fn encoded(alloc: Global, item: &Item) -> Result<Vec<u8>, AllocError>
    requires strict { is_strict_item most_containers item.now ≡ true }
    requires some { 0 < strict_len most_containers item.now }
    requires short { strict_len most_containers item.now ≤ 300 }
    ensures reads { IfOk result (λ body. strict_item body.items ≡ Some item.now) }
    ensures len { IfOk result (λ body. length body.items ≡ strict_len most_containers item.now) }
{
    strict_items_are_spelled();
    strict_spelling_is_unique();
    strict_item_is_exact();
    match encoded_len(item) {
        Some(len) => {
            let mut body = vec![in alloc; 0; len]?;
            encode_into(item, &mut body);
            Ok(body)
        }
        None => unreachable!(),
    }
}

/// The body of a key file's first record.
pub fn head_body(alloc: Global, head: &KeyHead) -> Result<Vec<u8>, AllocError>
    requires { IsHead head.now }
    ensures reads { IfOk result (λ body. words.head_of body.items ≡ Some head.now) }
    ensures other { IfOk result (λ body. words.upto_of body.items ≡ None) }
    ensures some { IfOk result (λ body. 0 < length body.items) }
    ensures short { IfOk result (λ body. length body.items ≤ 300) }
{
    strict_item_by_kind();
    strict_len_by_kind();
    let _levels = head.levels.as_slice();
    let item = head_item(alloc, head)?;
    encoded(alloc, &item)
}

/// The body of a reservation.
pub fn upto_body(alloc: Global, upto: u64) -> Result<Vec<u8>, AllocError>
    ensures reads { IfOk result (λ body. words.upto_of body.items ≡ Some upto) }
    ensures some { IfOk result (λ body. 0 < length body.items) }
    ensures short { IfOk result (λ body. length body.items ≤ 300) }
{
    strict_item_by_kind();
    strict_len_by_kind();
    let item = upto_item(alloc, upto)?;
    encoded(alloc, &item)
}
