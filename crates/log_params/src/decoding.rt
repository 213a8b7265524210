// Bytes as a parameter file, and items as its parts.

ghost use Rattle.std.specs.Prelude.{◌≡◌, IfOk};
ghost use Rattle.cbor_core.specs.Items.{text_in};
ghost use Rattle.log_replay.specs.Records.{any_holder_in};
ghost use Rattle.log_params.specs.ParamFiles.{params_from, short_in, signing_levels_in, AnswersAs, Decoded, ReadsItem, params_file_in, params_of_parts};

use crate::reading::{levels_of, short_of};
use crate::stop::ParamsStop;
use cbor_core::{DecodeStop, Item, array_of, decode_strict_all, is_uint};
use log_replay::{holder_of, text_copied};
use registrar::Params;
use std::alloc::{AllocError, Global};

// The parameters by the items of their parts.
fn params_by(
    alloc: Global,
    name: &Item,
    governor: &Item,
    levels: &Item,
    max_entries: &Item,
    block: &Item,
) -> Result<Option<Params>, AllocError>
    ensures { IfOk result (λ params. params
        ≡ params_from (text_in name.now) (any_holder_in governor.now) (signing_levels_in levels.now) (short_in max_entries.now) (short_in block.now)) }
{
    let Some(name) = text_copied(alloc, name)? else {
        return Ok(None);
    };
    let Some(governor) = holder_of(alloc, governor)? else {
        return Ok(None);
    };
    let Some(levels) = levels_of(alloc, levels)? else {
        return Ok(None);
    };
    let Some(max_entries) = short_of(max_entries) else {
        return Ok(None);
    };
    let Some(block) = short_of(block) else {
        return Ok(None);
    };
    Ok(Some(Params {
        name,
        governor,
        levels,
        max_entries,
        block,
    }))
}

/// The parameters that five items are, in their order: the service's name, a text; the governor's holder `[iss, kid, key]`, a text and
/// two byte strings, the key of 60 bytes; the levels, an array of one to three `[LMS code, OTS code]` of trees of heights 5 and 10
/// (RFC 8554, 5.1 and 4.1); the most entries; the block. The last two are unsigned numbers of at most 32 bits.
///
/// `None` exactly where there are more or fewer items, or one of another shape. Lengths and numbers are not judged further: a log is
/// created only by parameters within its limits. `AllocError` is the want of memory alone.
pub fn params_in(alloc: Global, items: &[Item]) -> Result<Option<Params>, AllocError>
    ensures { IfOk result (λ params. params ≡ params_of_parts items.now) }
{
    match items {
        [name, governor, levels, max_entries, block] => {
            params_by(alloc, name, governor, levels, max_entries, block)
        }
        _ => Ok(None),
    }
}

// The parameters that an item is.
#[tactic(auto, unfolding(crate::specs::ParamFiles::params_file_in))]
fn params_of(alloc: Global, item: &Item) -> Result<Option<Params>, AllocError>
    ensures { IfOk result (λ params. params ≡ params_file_in item.now) }
{
    let Some([form, parts @ ..]) = array_of(item) else {
        return Ok(None);
    };
    if !is_uint(1, form) {
        return Ok(None);
    }
    params_in(alloc, parts)
}

fn params_or_stop(alloc: Global, item: &Item) -> Result<Params, ParamsStop>
    ensures { AnswersAs result (params_file_in item.now) }
{
    match params_of(alloc, item) {
        Ok(Some(params)) => Ok(params),
        Ok(None) => Err(ParamsStop::BadParams),
        Err(_) => Err(ParamsStop::OutOfMemory),
    }
}

fn read(alloc: Global, bytes: &[u8]) -> Result<Item, ParamsStop>
    ensures { ReadsItem bytes.now result }
{
    match decode_strict_all(alloc, bytes) {
        Ok(item) => Ok(item),
        Err(DecodeStop::Fault(fault)) => Err(ParamsStop::Cbor(fault)),
        Err(DecodeStop::OutOfMemory) => Err(ParamsStop::OutOfMemory),
    }
}

/// The parameters that bytes strictly spell, the array of 1 and the five items of `params_in`.
///
/// `Cbor` is the first fault of the bytes as one strict item (RFC 8949, 4.2.1), and `BadParams` comes of every other item.
/// `OutOfMemory` is the want of memory alone.
pub fn decode(alloc: Global, bytes: &[u8]) -> Result<Params, ParamsStop>
    ensures { Decoded bytes.now result }
{
    let item = read(alloc, bytes)?;
    params_or_stop(alloc, &item)
}
