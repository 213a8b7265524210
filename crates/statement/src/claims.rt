ghost use Rattle.std.specs.Prelude.{◌≡◌, IfOk};
ghost use Rattle.statement.specs.Claims.{names_with, values_of as all_values, names_of as all_names, AnswersAs};

use crate::names::Names;
use crate::stops::ParseStop;
use crate::values::{alg_of, claims_of, kid_of, moment_claims, text_claim, type_of};
use cbor_core::{Bytes, Item, Text};
use cose_sign1::find;
use std::alloc::{AllocError, Global};

type Moments = (Option<u64>, Option<u64>, Option<u64>);

fn named(
    alloc: Global,
    protected: &[(Item, Item)],
    issuer: Text,
    subject: Text,
    kid: &[u8],
    moments: Moments,
) -> Result<Names, AllocError>
    ensures { IfOk result (λ names. names ≡ names_with protected.now issuer subject kid.now moments) }
{
    let kid = Bytes::from_slice(alloc, kid)?;
    let alg = alg_of(alloc, protected)?;
    let content_type = type_of(alloc, protected)?;
    Ok(Names {
        issuer,
        subject,
        kid,
        alg,
        content_type,
        nbf: moments.1,
        exp: moments.0,
        iat: moments.2,
    })
}

#[tactic(auto, unfolding(crate::specs::Claims::values_of))]
fn values_of(
    alloc: Global,
    protected: &[(Item, Item)],
    claims: &[(Item, Item)],
    issuer: &Item,
    subject: &Item,
    kid: &[u8],
) -> Result<Names, ParseStop>
    ensures { AnswersAs result (all_values protected.now claims.now issuer.now subject.now kid.now) }
{
    let issuer = text_claim(alloc, 1, issuer)?;
    let subject = text_claim(alloc, 2, subject)?;
    let moments = moment_claims(claims)?;
    match named(alloc, protected, issuer, subject, kid, moments) {
        Ok(names) => Ok(names),
        Err(_) => Err(ParseStop::OutOfMemory),
    }
}

/// What the protected parameters say, or the first rule that fails: `NoClaims`, `NoIssuer`, `NoSubject`, `NoKid`, `BadClaim`.
#[tactic(auto, unfolding(crate::specs::Claims::names_of))]
pub fn names_of(alloc: Global, protected: &[(Item, Item)]) -> Result<Names, ParseStop>
    ensures { AnswersAs result (all_names protected.now) }
{
    let Some(claims) = claims_of(protected) else {
        return Err(ParseStop::NoClaims);
    };
    let Some(issuer) = find(1, claims) else {
        return Err(ParseStop::NoIssuer);
    };
    let Some(subject) = find(2, claims) else {
        return Err(ParseStop::NoSubject);
    };
    let Some(kid) = kid_of(protected) else {
        return Err(ParseStop::NoKid);
    };
    values_of(alloc, protected, claims, issuer, subject, kid)
}
