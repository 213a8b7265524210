ghost use Rattle.std.specs.Prelude.{◌≡◌, ◌++◌, IfOk, codes};
ghost use Rattle.std.specs.String.{string_bytes};
ghost use Rattle.scitt_tool.specs.Answer.{refused};
ghost use Rattle.scitt_tool.specs.FaultText.{fault_text};
ghost use Rattle.scitt_tool.specs.Printed.{printed};
ghost use Rattle.scitt_tool.specs.StopText.{label_text, sign1_text, stop_text};

use crate::fault::why_text;
use crate::printed::push_printed;
use cbor_core::Fault;
use command_line::Answer;
use cose_sign1::{Label, Sign1Stop};
use statement::ParseStop;
use std::alloc::{AllocError, Global};

/// The refusal of bytes that are no statement.
pub(crate) fn refused_statement(alloc: Global, stop: &ParseStop) -> Result<Answer, AllocError>
    ensures { IfOk result (λ answer. answer ≡ refused (codes "refused " ++ stop_text stop.now)) }
{
    let text = stop_text(alloc, stop)?;
    let text = format!(in alloc; "refused {text}\n")?;
    Ok(Answer::made(1, text))
}

fn stop_text(alloc: Global, stop: &ParseStop) -> Result<String, AllocError>
    ensures { IfOk result (λ text. string_bytes text ≡ stop_text stop.now) }
{
    match stop {
        ParseStop::Sign1(stop) => sign1_text(alloc, stop),
        ParseStop::Detached => format!(in alloc; "Detached"),
        ParseStop::NoClaims => format!(in alloc; "NoClaims"),
        ParseStop::NoIssuer => format!(in alloc; "NoIssuer"),
        ParseStop::NoSubject => format!(in alloc; "NoSubject"),
        ParseStop::NoKid => format!(in alloc; "NoKid"),
        ParseStop::BadClaim(n) => format!(in alloc; "BadClaim {n}"),
        ParseStop::TooLarge => format!(in alloc; "TooLarge"),
        ParseStop::OutOfMemory => format!(in alloc; "OutOfMemory"),
    }
}

fn sign1_text(alloc: Global, stop: &Sign1Stop) -> Result<String, AllocError>
    ensures { IfOk result (λ text. string_bytes text ≡ sign1_text stop.now) }
{
    match stop {
        Sign1Stop::Cbor(fault) => {
            let fault = fault_text(alloc, *fault)?;
            format!(in alloc; "cbor {fault}")
        }
        Sign1Stop::Protected(fault) => {
            let fault = fault_text(alloc, *fault)?;
            format!(in alloc; "protected {fault}")
        }
        Sign1Stop::NotSign1 => format!(in alloc; "NotSign1"),
        Sign1Stop::BadHeader(label) => {
            let label = label_text(alloc, label)?;
            format!(in alloc; "BadHeader {label}")
        }
        Sign1Stop::DupLabel(label) => {
            let label = label_text(alloc, label)?;
            format!(in alloc; "DupLabel {label}")
        }
        Sign1Stop::BadCrit => format!(in alloc; "BadCrit"),
        Sign1Stop::OutOfMemory => format!(in alloc; "OutOfMemory"),
    }
}

fn fault_text(alloc: Global, fault: Fault) -> Result<String, AllocError>
    ensures { IfOk result (λ text. string_bytes text ≡ fault_text fault) }
{
    let why = why_text(fault.why);
    let at = fault.at;
    format!(in alloc; "{why} at {at}")
}

/// A label, as it is printed.
pub(crate) fn label_text(alloc: Global, label: &Label) -> Result<String, AllocError>
    ensures { IfOk result (λ text. string_bytes text ≡ label_text label.now) }
{
    match label {
        Label::Int(n) => format!(in alloc; "{n}"),
        Label::Text(text) => printed_text(alloc, text.as_slice()),
    }
}

/// A text from outside, as it is printed.
pub(crate) fn printed_text(alloc: Global, text: &[u8]) -> Result<String, AllocError>
    ensures { IfOk result (λ out. string_bytes out ≡ printed text.now) }
{
    let mut out = String::new(alloc);
    push_printed(alloc, &mut out, text)?;
    Ok(out)
}
