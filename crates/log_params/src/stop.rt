// Why bytes are no parameter file.

use cbor_core::Fault;
use thiserror::Error;

/// Why bytes are no parameter file.
#[derive(Clone, Copy, PartialEq, Eq, Debug, Drop, Error)]
pub enum ParamsStop {
    /// They aren't one strict item; the first fault and its place.
    #[error("{0}")]
    Cbor(Fault),
    /// They are an item of another shape.
    #[error("no parameters")]
    BadParams,
    /// Memory ran out.
    #[error("out of memory")]
    OutOfMemory,
}
