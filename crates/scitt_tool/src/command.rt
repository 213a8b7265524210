ghost use Rattle.std.specs.Prelude.{◌≡◌, ◌∷◌, [], slice_get};
ghost use Rattle.std.specs.Option.{option_map, option_copied};
ghost use Rattle.scitt_tool.specs.Command as said;
ghost use Rattle.scitt_tool.specs.Meaning.{meaning};

use crate::audit::LOG_LIMIT;
use crate::claims::claims_of;
use crate::consistent::{root_named, size_named};
use crate::generate::{Count, count_named};
use hss_keys::Levels;
use level_names::levels_named;
use merkle_tree::Hash;
use scitt_draft::Claims;
use scitt_io::Words;

/// A command with its arguments.
#[derive(Drop)]
pub(crate) enum Command<'a> {
    /// `root FILE`
    Root {
        file: &'a str,
    },
    /// `show FILE`
    Show {
        file: &'a str,
    },
    /// `policy FILE`
    Policy {
        file: &'a str,
    },
    /// `audit FILE`
    Audit {
        file: &'a str,
    },
    /// `replay FILE`
    Replay {
        file: &'a str,
    },
    /// `generate N`
    Generate {
        count: Count,
    },
    /// `keygen LEVELS`
    Keygen {
        levels: Levels,
    },
    /// `sign ISS SUB TYPE NBF EXP FILE`
    Sign {
        claims: Claims<'a>,
        file: &'a str,
    },
    /// `attach STATEMENT RECEIPT`
    Attach {
        statement: &'a str,
        receipt: &'a str,
    },
    /// `verify TRUST STATEMENT`
    Verify {
        trust: &'a str,
        statement: &'a str,
    },
    /// `consistent TRUST RECEIPT SIZE ROOT`
    Consistent {
        trust: &'a str,
        receipt: &'a str,
        size: u32,
        root: Hash,
    },
}

/// How long a file of a command other than `audit` may be, in bytes.
const LIMIT: u64 = 16_777_216;

impl Command<'_> {
    /// How long each file that the command reads may be, in bytes.
    pub fn limit(&self) -> u64
        ensures { result ≡ said.limit_of (meaning self.now) }
    {
        match self {
            Command::Audit { .. } => LOG_LIMIT,
            _ => LIMIT,
        }
    }

    /// The file that the command reads at this place in the order of its words, counted from 0.
    pub fn file(&self, place: usize) -> Option<&str>
        ensures { option_copied result ≡ slice_get (said.files_of (meaning self.now)) place }
    {
        match self {
            Command::Root { file }
            | Command::Show { file }
            | Command::Policy { file }
            | Command::Audit { file }
            | Command::Replay { file }
            | Command::Sign { file, .. } => first(place, file),
            Command::Generate { .. } | Command::Keygen { .. } => None,
            Command::Attach { statement, receipt } => either(place, statement, receipt),
            Command::Verify { trust, statement } => either(place, trust, statement),
            Command::Consistent { trust, receipt, .. } => either(place, trust, receipt),
        }
    }
}

fn first(place: usize, file: &str) -> Option<&str>
    ensures { option_copied result ≡ slice_get (file.now ∷ []) place }
{
    match place {
        0 => Some(file),
        _ => None,
    }
}

fn either<'a>(place: usize, first: &'a str, second: &'a str) -> Option<&'a str>
    ensures { option_copied result ≡ slice_get (first.now ∷ second.now ∷ []) place }
{
    match place {
        0 => Some(first),
        1 => Some(second),
        _ => None,
    }
}

fn with_one<'a>(name: &str, word: &'a str) -> Option<Command<'a>>
    ensures { option_map meaning result ≡ said.with_one name.now word.now }
{
    match name {
        "root" => Some(Command::Root { file: word }),
        "show" => Some(Command::Show { file: word }),
        "policy" => Some(Command::Policy { file: word }),
        "audit" => Some(Command::Audit { file: word }),
        "replay" => Some(Command::Replay { file: word }),
        "generate" => {
            let count = count_named(word)?;
            Some(Command::Generate { count })
        }
        "keygen" => {
            let levels = levels_named(word)?;
            Some(Command::Keygen { levels })
        }
        _ => None,
    }
}

fn with_two<'a>(name: &str, first: &'a str, second: &'a str) -> Option<Command<'a>>
    ensures { option_map meaning result ≡ said.with_two name.now first.now second.now }
{
    match name {
        "attach" => Some(Command::Attach {
            statement: first,
            receipt: second,
        }),
        "verify" => Some(Command::Verify {
            trust: first,
            statement: second,
        }),
        _ => None,
    }
}

fn with_four<'a>(
    name: &str,
    trust: &'a str,
    receipt: &'a str,
    size: &str,
    root: &str,
) -> Option<Command<'a>>
    ensures { option_map meaning result ≡ said.with_four name.now trust.now receipt.now size.now root.now }
{
    match name {
        "consistent" => {
            let size = size_named(size)?;
            let root = root_named(root)?;
            Some(Command::Consistent {
                trust,
                receipt,
                size,
                root,
            })
        }
        _ => None,
    }
}

fn with_six<'a>(
    name: &str,
    issuer: &'a str,
    subject: &'a str,
    content_type: &'a str,
    not_before: &str,
    expires: &str,
    file: &'a str,
) -> Option<Command<'a>>
    ensures { option_map meaning result
        ≡ said.with_six name.now issuer.now subject.now content_type.now not_before.now expires.now file.now }
{
    match name {
        "sign" => {
            let claims = claims_of(issuer, subject, content_type, not_before, expires)?;
            Some(Command::Sign { claims, file })
        }
        _ => None,
    }
}

/// The command that these words are, exactly.
pub(crate) fn command_of(words: &Words) -> Option<Command<'_>>
    ensures { option_map meaning result ≡ said.command_of words.now }
{
    match words.len() {
        2 => with_one(words.word(0), words.word(1)),
        3 => with_two(words.word(0), words.word(1), words.word(2)),
        5 => with_four(
            words.word(0),
            words.word(1),
            words.word(2),
            words.word(3),
            words.word(4),
        ),
        7 => with_six(
            words.word(0),
            words.word(1),
            words.word(2),
            words.word(3),
            words.word(4),
            words.word(5),
            words.word(6),
        ),
        _ => None,
    }
}
