ghost use Rattle.std.specs.Prelude.{◌≡◌, ◌++◌, IfOk, codes};
ghost use Rattle.std.specs.String.{string_bytes};
ghost use Rattle.scitt_tool.specs.FaultText.{why_text, fault_text};
ghost use Rattle.scitt_tool.specs.Answer.{refused};

use cbor_core::{Fault, Why};
use command_line::Answer;
use std::alloc::{AllocError, Global};

/// The name of a reason, as it is printed.
pub(crate) fn why_text(why: Why) -> &'static str
    ensures { result.now ≡ why_text why }
{
    match why {
        Why::Truncated => "Truncated",
        Why::Reserved => "Reserved",
        Why::Indefinite => "Indefinite",
        Why::NotShortest => "NotShortest",
        Why::FloatHere => "FloatHere",
        Why::TooLong => "TooLong",
        Why::TooDeep => "TooDeep",
        Why::NotUtf8 => "NotUtf8",
        Why::DupKey => "DupKey",
        Why::KeyOrder => "KeyOrder",
        Why::Trailing => "Trailing",
    }
}

/// The refusal of bytes that aren't CBOR.
pub(crate) fn refused_cbor(alloc: Global, fault: Fault) -> Result<Answer, AllocError>
    ensures { IfOk result (λ answer. answer ≡ refused (codes "refused cbor " ++ fault_text fault)) }
{
    let why = why_text(fault.why);
    let at = fault.at;
    let text = format!(in alloc; "refused cbor {why} at {at}\n")?;
    Ok(Answer::made(1, text))
}
