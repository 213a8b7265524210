// What a program ends with.

ghost use Rattle.std.specs.Prelude.{◌≡◌};
ghost use Rattle.std.specs.Process.{exit_status};

use crate::answer::Status;
use std::process::ExitCode;

/// The exit code of a status.
pub fn exit_code(status: Status) -> ExitCode
    ensures { exit_status result ≡ status }
{
    ExitCode::from(status)
}
