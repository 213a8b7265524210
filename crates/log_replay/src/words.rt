// What the calls answer.

use thiserror::Error;

/// What a statement is judged to be.
#[derive(Clone, Copy, PartialEq, Eq, Debug)]
pub enum Judgement {
    /// The log holds the statement, as the entry at this index.
    Known(u32),
    /// This rule admits it.
    Admit(u16),
    /// This rule denies it.
    Deny(u16),
}

/// The rule that a record fails first.
#[derive(Clone, Copy, PartialEq, Eq, Debug, Error)]
pub enum Why {
    /// The body is too long, isn't strict, or has the shape of no record.
    #[error("no record's form")]
    Form,
    /// Record 0 is no Header, or a later record is one.
    #[error("a header elsewhere than first")]
    Order,
    /// A limit of the header is broken, or the service's key isn't of its levels.
    #[error("a header against its limits")]
    Header,
    /// The reservation isn't above the last one, or too far above it, or above the capacity.
    #[error("a reservation out of its bounds")]
    Reserve,
    /// The entry has another form, or its bytes are no statement equal to its logged form.
    #[error("no entry's form")]
    EntryForm,
    /// The entry's moment is below the last one.
    #[error("a moment before the last one")]
    Moment,
    /// The entry isn't judged to be admitted by its rule.
    #[error("another verdict than the policy's")]
    Verdict,
    /// The log has no room for the entry.
    #[error("an entry that the log has no room for")]
    Full,
    /// The signature's index isn't the record's, or isn't reserved, or isn't above those used.
    #[error("an index out of turn")]
    Index,
    /// The service's key doesn't verify the signed text over the root.
    #[error("no signature of the service over the root")]
    Signature,
}

/// Why a record fails, with the recorded and the judged rule where these differ, and else 0.
#[derive(Clone, Copy, PartialEq, Eq, Debug)]
pub struct Failing {
    pub why: Why,
    pub recorded: u16,
    pub found: u16,
}

/// Why a record isn't taken.
#[derive(Clone, Copy, PartialEq, Eq, Debug, Drop, Error)]
pub enum StepStop {
    /// The list with this record isn't well made: the record's number, and the first rule that it fails.
    #[error("record {number}: {why}")]
    BadRecord { number: u64, why: Why },
    /// Memory ran out.
    #[error("out of memory")]
    OutOfMemory,
}
