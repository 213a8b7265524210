use crate::labels::Label;
use cbor_core::Fault;
use thiserror::Error;

/// Why bytes are no COSE_Sign1, in the order in which the steps are tried.
#[derive(Debug, PartialEq, Eq, Drop, Error)]
pub enum Sign1Stop {
    /// The bytes aren't one item of the wide grammar.
    #[error("{0}")]
    Cbor(Fault),
    /// The protected string isn't empty and isn't one item of the wide grammar. The place counts inside it.
    #[error("protected: {0}")]
    Protected(Fault),
    /// The shape fails (RFC 9052, 4.2), the protected string holds no map, or a key is neither an integer nor a text.
    #[error("no COSE_Sign1")]
    NotSign1,
    /// An entry's value is of the wrong kind (RFC 9052, 3.1), or label 394 stands in the protected map.
    #[error("a wrong value of header parameter {0}")]
    BadHeader(Label),
    /// Both maps have this label (RFC 9052, 3).
    #[error("header parameter {0} stands in both maps")]
    DupLabel(Label),
    /// Label 2 stands unprotected, is empty, or lists a label that isn't understood or isn't protected (RFC 9052, 3.1).
    #[error("crit lists what isn't understood or protected")]
    BadCrit,
    #[error("out of memory")]
    OutOfMemory,
}
