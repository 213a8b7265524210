// What a script holds, and why there is none.

ghost use Rattle.std.specs.Prelude.{◌≡◌};
ghost use Rattle.scitt_script.specs.declared.script.ScriptStop.TheVariants as stop_of;

use cbor_core::Bytes;
use registrar::Params;
use sqlite_items::Items;
use std::alloc::AllocError;
use thiserror::Error;

/// A log that is begun, the moments that the clock gives, and what a peer sends.
#[derive(Drop)]
pub struct Script {
    /// The seed of the service's key.
    pub seed: [u8; 32],
    /// The identifier of its first tree.
    pub id: [u8; 16],
    /// What the log is begun with.
    pub params: Params,
    /// The moments, in seconds since 1970, in the order in which the clock gives them.
    pub moments: Items<u64>,
    /// All that the peer sends.
    pub session: Bytes,
}

/// Why there is no script, or no replay of one.
#[derive(Clone, Copy, Debug, PartialEq, Eq, Error)]
pub enum ScriptStop {
    /// The bytes are no script, or a limit of the log's header is broken.
    #[error("no script")]
    BadScript,
    /// Memory ran out.
    #[error("out of memory")]
    OutOfMemory,
}

impl From<AllocError> for ScriptStop {
    ghost from_gives = { λ _ stop. stop ≡ stop_of.OutOfMemory };

    fn from(_fault: AllocError) -> ScriptStop {
        ScriptStop::OutOfMemory
    }
}
