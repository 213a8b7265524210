// The parts of parameters, as items spell them.

ghost use Rattle.std.specs.Prelude.{◌≡◌, IfOk};
ghost use Rattle.log_params.specs.ParamFiles.{signing_levels_in, short_in};

use cbor_core::{Item, uint_of};
use hss_keys::Levels;
use log_replay::any_levels_of;
use std::alloc::{AllocError, Global};

/// The levels that an item is, one to three that the signer has.
pub(crate) fn levels_of(alloc: Global, item: &Item) -> Result<Option<Levels>, AllocError>
    ensures { IfOk result (λ levels. levels ≡ signing_levels_in item.now) }
{
    match any_levels_of(alloc, item)? {
        Some(levels) => Ok(Levels::of(levels.as_slice())),
        None => Ok(None),
    }
}

/// The number of at most 32 bits that an item is.
pub(crate) fn short_of(item: &Item) -> Option<u32>
    ensures { result ≡ short_in item.now }
{
    u32::try_from(uint_of(item)?).ok()
}
