// What a new statement is to claim, read from its words.
ghost use Rattle.std.specs.Prelude.{◌≡◌};
ghost use Rattle.std.specs.Option.{option_map};
ghost use Rattle.scitt_tool.specs.Claims.{moment_of as moment_named, claims_of as claims_named};
ghost use Rattle.scitt_draft.specs.Drafts.{claimed};

use crate::numbers::number_upto;
use scitt_draft::Claims;

/// The latest moment of a claim.
const LATEST: u64 = 9_223_372_036_854_775_807;

// A moment, or `-` for none.
fn moment_of(text: &str) -> Option<Option<u64>>
    ensures { result ≡ moment_named text.now }
{
    if text == "-" {
        return Some(None);
    }
    match number_upto(text, LATEST) {
        Some(n) => Some(Some(n)),
        None => None,
    }
}

/// The claims that the words ISS SUB TYPE NBF EXP say.
pub(crate) fn claims_of<'a>(
    issuer: &'a str,
    subject: &'a str,
    content_type: &'a str,
    not_before: &str,
    expires: &str,
) -> Option<Claims<'a>>
    ensures { option_map claimed result
        ≡ claims_named issuer.now subject.now content_type.now not_before.now expires.now }
{
    let not_before = moment_of(not_before)?;
    let expires = moment_of(expires)?;
    Some(Claims {
        issuer,
        subject,
        content_type,
        not_before,
        expires,
    })
}
