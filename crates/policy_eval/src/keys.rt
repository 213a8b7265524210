// Counts by key: places made for keys, and counts raised in place.

ghost use Rattle.std.specs.Prelude.{◌≡◌, ◌<◌, Some, IfOk, IfSome, slice_get};
ghost use Rattle.std.specs.Map.{lookup};
ghost use Rattle.indexmap.specs.IndexMap.{index_map_len, values};
ghost use Rattle.policy_eval.specs.Counts.{place, count, raised, is_text, is_pair, Keeps};

use cbor_core::Text;
use indexmap::IndexMap;
use std::alloc::{AllocError, Global};
use std::hash::Hash;

// The place of a text, which is put last with the count 0 where it had none.
pub(crate) fn text_key(
    alloc: Global,
    counts: &mut IndexMap<String, u32>,
    text: &Text,
) -> Result<usize, AllocError>
    ensures keeps { Keeps is_text counts.old.entries counts.new.entries }
    ensures at { IfOk result (λ i. place (is_text text.now) counts.new.entries ≡ Some i) }
{
    if let Some(at) = counts.get_index_of(text.as_str()) {
        return Ok(at);
    }
    let key = String::from_str(alloc, text.as_str())?;
    let at = counts.len();
    counts.insert(key, 0)?;
    Ok(at)
}

// The place of a pair, which is put last with the count 0 where it had none.
pub(crate) fn pair_key(
    counts: &mut IndexMap<(usize, usize), u32>,
    pair: (usize, usize),
) -> Result<usize, AllocError>
    ensures keeps { Keeps is_pair counts.old.entries counts.new.entries }
    ensures at { IfOk result (λ i. place (is_pair pair) counts.new.entries ≡ Some i) }
{
    if let Some(at) = counts.get_index_of(&pair) {
        return Ok(at);
    }
    let at = counts.len();
    counts.insert(pair, 0)?;
    Ok(at)
}

// One more at a place.
pub(crate) fn raise<K: Eq + Hash>(counts: &mut IndexMap<K, u32>, at: usize)
    requires within { at < index_map_len counts.old }
    requires few { IfSome (slice_get (values counts.old) at) (λ n. n < 4294967295) }
    ensures { counts.new.entries ≡ raised counts.old.entries at }
{
    counts[at] += 1;
}

pub(crate) fn text_at(counts: &IndexMap<String, u32>, text: &Text) -> Option<usize>
    ensures at { result ≡ place (is_text text.now) counts.now.entries }
    ensures within { IfSome result (λ i. i < index_map_len counts.now) }
    ensures count { IfSome result (λ i. slice_get (values counts.now) i ≡ lookup (is_text text.now) counts.now.entries) }
{
    counts.get_index_of(text.as_str())
}

pub(crate) fn pair_at(counts: &IndexMap<(usize, usize), u32>, pair: (usize, usize)) -> Option<usize>
    ensures at { result ≡ place (is_pair pair) counts.now.entries }
    ensures within { IfSome result (λ i. i < index_map_len counts.now) }
    ensures count { IfSome result (λ i. slice_get (values counts.now) i ≡ lookup (is_pair pair) counts.now.entries) }
{
    counts.get_index_of(&pair)
}

pub(crate) fn text_count(counts: &IndexMap<String, u32>, text: &Text) -> u32
    ensures { result ≡ count (is_text text.now) counts.now.entries }
{
    counts.get(text.as_str()).copied().unwrap_or(0)
}

pub(crate) fn pair_count(counts: &IndexMap<(usize, usize), u32>, pair: (usize, usize)) -> u32
    ensures { result ≡ count (is_pair pair) counts.now.entries }
{
    counts.get(&pair).copied().unwrap_or(0)
}
