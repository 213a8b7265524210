// What the types of a statement's claims say of them.
ghost use Rattle.std.specs.Prelude.{◌≡◌, ◌<◌, ◌^◌, IfSome, true};
ghost use Rattle.std.specs.Str.{is_utf8};
ghost use Rattle.scitt_draft.specs.Drafts.{claimed};
ghost use Rattle.scitt_draft.specs.Drafts.{names_fit};
ghost use Rattle.scitt_draft.specs.Drafts.{ClaimsWithin};

use crate::claims::Claims;

fn is_text(text: &str)
    ensures { is_utf8 text.now ≡ true }
{
    let _text = text;
}

fn is_moment(moment: Option<u64>)
    ensures { IfSome moment (λ m. m < 2 ^ 64) }
{
    if let Some(moment) = moment {
        let _moment = moment;
    }
}

/// Claims whose names are within their limits are texts and moments that have strict bytes.
pub(crate) fn claims_are_within(claims: &Claims<'_>)
    requires { names_fit (claimed claims.now) ≡ true }
    ensures { ClaimsWithin (claimed claims.now) }
{
    is_text(claims.issuer);
    is_text(claims.subject);
    is_text(claims.content_type);
    is_moment(claims.not_before);
    is_moment(claims.expires);
}
