ghost use Rattle.std.specs.Prelude.{◌≡◌, IfOk};
ghost use Rattle.std.specs.String.{string_bytes};
ghost use Rattle.scitt_tool.specs.Policy.{PolicyTextOf, policy_lines};

use crate::fault::refused_cbor;
use crate::lines::{count_text, push_line};
use command_line::Answer;
use policy_rules::{Policy, PolicyStop, decode};
use std::alloc::{AllocError, Global};

/// What `policy` answers of a file's bytes.
pub(crate) fn policy(alloc: Global, bytes: &[u8]) -> Result<Answer, AllocError>
    ensures { IfOk result (PolicyTextOf bytes.now) }
{
    match decode(alloc, bytes) {
        Ok(policy) => {
            let text = lines(alloc, &policy)?;
            Ok(Answer::made(0, text))
        }
        Err(PolicyStop::Cbor(fault)) => refused_cbor(alloc, fault),
        Err(PolicyStop::BadPolicy(place)) => {
            let text = format!(in alloc; "refused policy {place}\n")?;
            Ok(Answer::made(1, text))
        }
        Err(PolicyStop::OutOfMemory) => Err(AllocError),
    }
}

fn lines(alloc: Global, policy: &Policy) -> Result<String, AllocError>
    ensures { IfOk result (λ text. string_bytes text ≡ policy_lines policy.now) }
{
    let version = policy.version;
    let version = format!(in alloc; "{version}")?;
    let governors = count_text(alloc, policy.governors.len())?;
    let issuers = count_text(alloc, policy.issuers.len())?;
    let rules = count_text(alloc, policy.rules.len())?;
    let mut text = String::new(alloc);
    push_line(&mut text, "version ", version.as_str())?;
    push_line(&mut text, "governors ", governors.as_str())?;
    push_line(&mut text, "issuers ", issuers.as_str())?;
    push_line(&mut text, "rules ", rules.as_str())?;
    Ok(text)
}
