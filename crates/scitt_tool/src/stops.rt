// Why a command ends without an answer of its own.
ghost use Rattle.std.specs.Prelude.{◌≡◌};
ghost use Rattle.scitt_tool.specs.declared.stops.ToolStop.TheVariants as of_tool;

use key_store::TakeStop;
use scitt_io::ReadFault;
use std::alloc::AllocError;

/// Why a command ends without an answer of its own.
#[derive(Debug, Clone, Copy, PartialEq, Eq)]
pub(crate) enum ToolStop {
    /// The random source refused a read, and its count of faults rose.
    ReadFault,
    /// The key file's disk failed, and its count of faults rose.
    DiskFault,
    /// Memory was wanting.
    OutOfMemory,
}

impl From<AllocError> for ToolStop {
    ghost from_gives = { λ _ stop. stop ≡ of_tool.OutOfMemory };

    fn from(_fault: AllocError) -> ToolStop {
        ToolStop::OutOfMemory
    }
}

impl From<ReadFault> for ToolStop {
    ghost from_gives = { λ _ stop. stop ≡ of_tool.ReadFault };

    fn from(_fault: ReadFault) -> ToolStop {
        ToolStop::ReadFault
    }
}
