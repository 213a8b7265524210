ghost use Rattle.std.specs.Prelude.{◌≡◌, [], IfOk, option_and_then};
ghost use Rattle.std.specs.Option.{option_copied};
ghost use Rattle.cbor_core.specs.Items.{map_in, is_uint as is_number};
ghost use Rattle.receipts.specs.Form.{number_to as small_in, hash_in, name_in, alone, hashes_onto, path_in};

use cbor_core::{Item, Text, array_of, bytes_of, is_uint, map_of, text_of, uint_of};
use merkle_tree::{Hash, Path};
use std::alloc::{AllocError, Global};

/// An unsigned number of at most so much.
pub fn number_to(high: u64, item: &Item) -> Option<u64>
    ensures { result ≡ small_in high item.now }
{
    let n = uint_of(item)?;
    if n > high {
        return None;
    }
    Some(n)
}

/// A byte string of 32 bytes.
pub fn hash(item: &Item) -> Option<Hash>
    ensures { result ≡ hash_in item.now }
{
    match bytes_of(item)?.as_array::<32>() {
        Some(hash) => Some(*hash),
        None => None,
    }
}

/// A service's name: a text of 1 to 128 bytes.
pub fn name(alloc: Global, item: &Item) -> Result<Option<Text>, AllocError>
    ensures { IfOk result (λ name. name ≡ name_in item.now) }
{
    let Some(text) = text_of(item) else {
        return Ok(None);
    };
    if text.len() >= 1 && text.len() <= 128 {
        return Ok(Some(Text::from_str(alloc, text)?));
    }
    Ok(None)
}

/// What stands alone beside the number 1.
pub fn claim(item: &Item) -> Option<&Item>
    ensures { option_copied result ≡ option_and_then (alone (is_number 1)) (map_in item.now) }
{
    let [(key, value)] = map_of(item)? else {
        return None;
    };
    if !is_uint(1, key) {
        return None;
    }
    Some(value)
}

/// The path of a proof: at most 32 hashes.
pub fn path_of(alloc: Global, item: &Item) -> Result<Option<Path>, AllocError>
    ensures { IfOk result (λ path. path ≡ path_in item.now) }
{
    let Some(items) = array_of(item) else {
        return Ok(None);
    };
    if items.len() > 32 {
        return Ok(None);
    }
    hashes(alloc, items)
}

fn hashes(alloc: Global, items: &[Item]) -> Result<Option<Path>, AllocError>
    ensures { IfOk result (λ path. path ≡ hashes_onto [] items.now) }
{
    let mut path = Path::new(alloc);
    for item in items {
        match hash(item) {
            Some(hash) => path.push(hash)?,
            None => return Ok(None),
        }
    }
    Ok(Some(path))
}
