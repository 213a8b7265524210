ghost use Rattle.std.specs.Prelude.{◌≡◌, ◌++◌, IfOk, OnOk};
ghost use Rattle.std.specs.Fmt.{decimal};
ghost use Rattle.std.specs.String.{string_bytes};
ghost use Rattle.scitt_tool.specs.Answer.{line};

use std::alloc::{AllocError, Global};

/// Adds a line: a name and what stands beside it.
pub(crate) fn push_line(out: &mut String, name: &str, text: &str) -> Result<(), AllocError>
    ensures { OnOk result (string_bytes out.new ≡ string_bytes out.old ++ line (name.now ++ text.now)) }
{
    out.push_str(name)?;
    out.push_str(text)?;
    out.push_str("\n")?;
    Ok(())
}

pub(crate) fn count_text(alloc: Global, count: usize) -> Result<String, AllocError>
    ensures { IfOk result (λ text. string_bytes text ≡ decimal count) }
{
    format!(in alloc; "{count}")
}
