// The answer that is this program's own.

ghost use Rattle.std.specs.Prelude.{◌≡◌};
ghost use Rattle.write_tool.specs.Answer.{too_long};

use command_line::Answer;

/// The file is longer than the limit.
pub(crate) fn too_long() -> Answer
    ensures { result ≡ too_long }
{
    Answer::fixed(8, "too long 16777216\n")
}
