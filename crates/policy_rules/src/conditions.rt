// The conditions of rules.

use cbor_core::Text;
use sqlite_items::{Boxed, Items};

/// A condition of a rule. Contracts see it as a plain tree.
#[cycle(cond)]
#[derive(Drop)]
pub struct Cond {
    pub node: CondNode,
}

/// The kinds of condition.
#[cycle(cond)]
#[derive(Drop)]
pub enum CondNode {
    /// All of these hold.
    All(Items<Cond>),
    /// At least one of these holds.
    Any(Items<Cond>),
    /// This doesn't hold.
    Not(Boxed<Cond>),
    /// The issuer is this text.
    Issuer(Text),
    /// The subject begins with these bytes.
    SubjectPrefix(Text),
    /// The content type is this text.
    ContentType(Text),
    /// The payload has at most so many bytes.
    PayloadAtMost(u64),
    /// No earlier entry has the subject.
    FirstOfSubject,
    /// Fewer than so many earlier entries have the issuer.
    CountBelow(u64),
    /// An earlier entry has the subject, and this text as its issuer.
    Prior(Text),
}
