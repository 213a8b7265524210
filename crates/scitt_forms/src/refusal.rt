// Why a form isn't taken.

ghost use Rattle.std.specs.Prelude.{◌≡◌};
ghost use Rattle.scitt_forms.specs.Fields.{name_of};

/// A key of a form, or a part of one: each refusal names one.
#[derive(Debug, Clone, Copy, PartialEq, Eq)]
pub enum Word {
    /// The form as a whole.
    Form,
    /// The keys of a table.
    Keys,
    Version,
    Governor,
    Issuer,
    Rule,
    Service,
    Iss,
    Kid,
    Key,
    Id,
    /// What a rule does: `admit` or `deny`.
    Effect,
    Admit,
    Deny,
    /// A condition as a whole.
    Condition,
    All,
    Any,
    Not,
    SubjectPrefix,
    ContentType,
    PayloadAtMost,
    FirstOfSubject,
    CountBelow,
    Prior,
    Name,
    Levels,
    MaxEntries,
    Block,
}

/// A table of a form: the list that it stands in and its index there, from 0. The whole form is `Form` and 0.
#[derive(Debug, Clone, Copy, PartialEq, Eq)]
pub struct Place {
    pub list: Word,
    pub index: usize,
}

/// The reason of a refusal.
#[derive(Debug, Clone, Copy, PartialEq, Eq)]
pub enum Why {
    /// The text isn't a TOML document.
    Toml,
    /// The key doesn't stand.
    Missing,
    /// Its value is of another kind.
    Kind,
    /// Its text isn't hexadecimal digits, or a key's isn't 120 of them.
    Hex,
    /// The number is below 0.
    Negative,
    /// There is a key, or a condition, that forms don't have.
    Unknown,
    /// A condition is more than 8 deep.
    Deep,
    /// Both effects stand.
    Both,
    /// The text names no levels.
    Named,
    /// A limit of the document is broken, or two names or ids are one.
    Limits,
}

/// Why a form isn't taken: the table, its key, and one reason.
#[derive(Debug, Clone, Copy, PartialEq, Eq)]
pub struct Refusal {
    pub place: Place,
    pub word: Word,
    pub why: Why,
}

impl Word {
    /// The key.
    pub fn name(self) -> &'static str
        ensures { result.now ≡ name_of self }
    {
        match self {
            Word::Form => "form",
            Word::Keys => "keys",
            Word::Version => "version",
            Word::Governor => "governor",
            Word::Issuer => "issuer",
            Word::Rule => "rule",
            Word::Service => "service",
            Word::Iss => "iss",
            Word::Kid => "kid",
            Word::Key => "key",
            Word::Id => "id",
            Word::Effect => "effect",
            Word::Admit => "admit",
            Word::Deny => "deny",
            Word::Condition => "condition",
            Word::All => "all",
            Word::Any => "any",
            Word::Not => "not",
            Word::SubjectPrefix => "subject_prefix",
            Word::ContentType => "content_type",
            Word::PayloadAtMost => "payload_at_most",
            Word::FirstOfSubject => "first_of_subject",
            Word::CountBelow => "issuer_count_below",
            Word::Prior => "prior_issuer",
            Word::Name => "name",
            Word::Levels => "levels",
            Word::MaxEntries => "max_entries",
            Word::Block => "block",
        }
    }
}
