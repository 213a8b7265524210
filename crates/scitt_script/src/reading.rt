// The parts of a script, as items spell them.

ghost use Rattle.std.specs.Prelude.{◌≡◌, [], IfOk};
ghost use Rattle.cbor_core.specs.Items.{bytes_in, uint_in};
ghost use Rattle.policy_rules.specs.Conditions.{each_onto};
ghost use Rattle.log_params.specs.ParamFiles.{params_of_parts};
ghost use Rattle.scitt_script.specs.Scripts.{bytes_of_length, moments_in, script_from, script_of_parts};

use crate::script::Script;
use cbor_core::{Bytes, Item, array_of, bytes_of, is_uint, uint_of};
use log_params::params_in;
use sqlite_items::Items;
use std::alloc::{AllocError, Global};

fn seed_of(item: &Item) -> Option<[u8; 32]>
    ensures { result ≡ bytes_of_length 32 item.now }
{
    match bytes_of(item)?.as_array::<32>() {
        Some(seed) => Some(*seed),
        None => None,
    }
}

fn id_of(item: &Item) -> Option<[u8; 16]>
    ensures { result ≡ bytes_of_length 16 item.now }
{
    match bytes_of(item)?.as_array::<16>() {
        Some(id) => Some(*id),
        None => None,
    }
}

fn bytes_copied(alloc: Global, item: &Item) -> Result<Option<Bytes>, AllocError>
    ensures { IfOk result (λ bytes. bytes ≡ bytes_in item.now) }
{
    match bytes_of(item) {
        Some(bytes) => Ok(Some(Bytes::from_slice(alloc, bytes)?)),
        None => Ok(None),
    }
}

fn each_moment(alloc: Global, items: &[Item]) -> Result<Option<Items<u64>>, AllocError>
    ensures { IfOk result (λ moments. moments ≡ each_onto uint_in [] items.now) }
{
    let mut moments = Items::new(alloc);
    for item in items {
        match uint_of(item) {
            Some(moment) => moments.push(moment)?,
            None => return Ok(None),
        }
    }
    Ok(Some(moments))
}

fn moments_of(alloc: Global, item: &Item) -> Result<Option<Items<u64>>, AllocError>
    ensures { IfOk result (λ moments. moments ≡ moments_in item.now) }
{
    match array_of(item) {
        Some(items) => each_moment(alloc, items),
        None => Ok(None),
    }
}

// The script by the items of its parts.
fn script_by(
    alloc: Global,
    seed: &Item,
    id: &Item,
    params: &[Item],
    moments: &Item,
    session: &Item,
) -> Result<Option<Script>, AllocError>
    ensures { IfOk result (λ script. script ≡ script_from (bytes_of_length 32 seed.now) (bytes_of_length 16 id.now)
        (params_of_parts params.now) (moments_in moments.now) (bytes_in session.now)) }
{
    let Some(seed) = seed_of(seed) else {
        return Ok(None);
    };
    let Some(id) = id_of(id) else {
        return Ok(None);
    };
    let Some(params) = params_in(alloc, params)? else {
        return Ok(None);
    };
    let Some(moments) = moments_of(alloc, moments)? else {
        return Ok(None);
    };
    let Some(session) = bytes_copied(alloc, session)? else {
        return Ok(None);
    };
    Ok(Some(Script {
        seed,
        id,
        params,
        moments,
        session,
    }))
}

/// The script that ten items are.
pub(crate) fn script_of(alloc: Global, items: &[Item]) -> Result<Option<Script>, AllocError>
    ensures { IfOk result (λ script. script ≡ script_of_parts items.now) }
{
    match items {
        [form, seed, id, rest @ ..] if rest.len() == 7 && is_uint(1, form) => {
            script_by(alloc, seed, id, &rest[..5], &rest[5], &rest[6])
        }
        _ => Ok(None),
    }
}
