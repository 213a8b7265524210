// The commands, and the words of each.

ghost use Rattle.std.specs.Prelude.{◌≡◌};
ghost use Rattle.std.specs.Option.{option_map};
ghost use Rattle.write_tool.specs.Command as said;
ghost use Rattle.write_tool.specs.Meaning.{meaning};

use scitt_io::Words;

/// The kinds of form.
#[derive(Debug, Clone, Copy, PartialEq, Eq)]
pub enum Kind {
    /// `policy FILE`
    Policy,
    /// `params FILE`
    Params,
    /// `trust FILE`
    Trust,
}

/// What is asked for.
#[derive(Debug, Clone, Copy, PartialEq, Eq)]
pub enum Task {
    /// The strict bytes of a form's document.
    Write(Kind),
    /// `show FILE`: the form of a policy's or a trust file's bytes.
    Show,
}

/// What is asked for, and the file that it is asked of.
#[derive(Clone, Copy)]
pub(crate) struct Command<'a> {
    pub task: Task,
    pub file: &'a str,
}

fn with_file(task: Task, file: &str) -> Command<'_>
    ensures { meaning result ≡ said.command task file.now }
{
    Command { task, file }
}

fn with_one<'a>(name: &str, file: &'a str) -> Option<Command<'a>>
    ensures { option_map meaning result ≡ said.with_one name.now file.now }
{
    match name {
        "policy" => Some(with_file(Task::Write(Kind::Policy), file)),
        "params" => Some(with_file(Task::Write(Kind::Params), file)),
        "trust" => Some(with_file(Task::Write(Kind::Trust), file)),
        "show" => Some(with_file(Task::Show, file)),
        _ => None,
    }
}

/// The command that the words are, exactly.
pub(crate) fn command_of(words: &Words) -> Option<Command<'_>>
    ensures { option_map meaning result ≡ said.command_of words.now }
{
    match words.len() {
        2 => with_one(words.word(0), words.word(1)),
        _ => None,
    }
}
