// Why no bytes are written of a text.

use crate::refusal::Refusal;

/// Why no bytes are written of a text.
#[derive(Debug, Clone, Copy, PartialEq, Eq)]
pub enum FormStop {
    /// It says no document: the table, its key, and one reason.
    Refused(Refusal),
    /// What it says has no strict bytes: more than 4,096 tables in a list or conditions in one, or a text of more than 4,198,400 bytes.
    TooLong,
    /// Memory ran out.
    OutOfMemory,
}
