ghost use Rattle.std.specs.Prelude.{◌≡◌, ◌++◌, ◌<◌, OnOk, is_ok, if◌then◌else◌};
ghost use Rattle.std.specs.String.{string_bytes};
ghost use Rattle.scitt_tool.specs.Printed.{printed, printed_byte};

use std::alloc::{AllocError, Global};

/// Adds a text from outside, as it is printed.
pub(crate) fn push_printed(alloc: Global, out: &mut String, text: &[u8]) -> Result<(), AllocError>
    ensures { OnOk result (string_bytes out.new ≡ string_bytes out.old ++ printed text.now) }
{
    for byte in text {
        push_byte(alloc, out, *byte)?;
    }
    Ok(())
}

fn push_byte(alloc: Global, out: &mut String, byte: u8) -> Result<(), AllocError>
    ensures { OnOk result (string_bytes out.new ≡ string_bytes out.old ++ printed_byte byte) }
{
    if byte < 32 || byte > 126 || byte == b'\\' {
        let digits = hex::encode(alloc, [byte].as_slice())?;
        out.push_str("\\x")?;
        out.push_str(digits.as_str())?;
        return Ok(());
    }
    out.push(char::from(byte))?;
    Ok(())
}
