// Answers that are those of this tool.

ghost use Rattle.std.specs.Prelude.{◌≡◌};
ghost use Rattle.scitt_tool.specs.Answer.{too_long, disk_fault};
ghost use Rattle.scitt_tool.specs.Command.{limit_of};
ghost use Rattle.scitt_tool.specs.Meaning.{meaning};

use crate::command::Command;
use command_line::Answer;

/// A file that the command reads is longer than its limit.
pub(crate) fn too_long(command: &Command<'_>) -> Answer
    ensures { result ≡ too_long (limit_of (meaning command.now)) }
{
    match command {
        Command::Audit { .. } => Answer::fixed(8, "too long 3221225472\n"),
        _ => Answer::fixed(8, "too long 16777216\n"),
    }
}

/// A call of the key file's disk failed.
pub(crate) fn disk_fault() -> Answer
    ensures { result ≡ disk_fault }
{
    Answer::fixed(6, "disk fault\n")
}
