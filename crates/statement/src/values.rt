ghost use Rattle.std.specs.Prelude.{◌≡◌, IfOk};
ghost use Rattle.std.specs.Option.{option_copied};
ghost use Rattle.cbor_core.specs.declared.tree.Node.{out-Node};
ghost use Rattle.cose_sign1.specs.Labels.{value_at};
ghost use Rattle.cose_sign1.specs.Parts.{string_in};
ghost use Rattle.statement.specs.Claims.{map_in, claims_by, kid_by, name_in, name_of, moment_in, moment_of, moments_of, alg_by, type_in, type_by as type_beside, AnswersAs};

use crate::names::ContentType;
use crate::stops::ParseStop;
use cbor_core::{Item, Node, Text};
use cose_sign1::{Label, find, label_of};
use std::alloc::{AllocError, Global};

fn entries_of(node: &Node) -> Option<&[(Item, Item)]>
    ensures { option_copied result ≡ map_in (out-Node node.now) }
{
    match node {
        Node::Map(pairs) => Some(pairs.as_slice()),
        _ => None,
    }
}

fn bytes_of(node: &Node) -> Option<&[u8]>
    ensures { option_copied result ≡ string_in (out-Node node.now) }
{
    match node {
        Node::Bytes(bytes) => Some(bytes.as_slice()),
        _ => None,
    }
}

/// The claims: the map beside label 15 (RFC 9597, 2).
pub fn claims_of(protected: &[(Item, Item)]) -> Option<&[(Item, Item)]>
    ensures { option_copied result ≡ claims_by (value_at 15 protected.now) }
{
    match find(15, protected) {
        Some(item) => entries_of(&item.node),
        None => None,
    }
}

/// The key's name: the byte string beside label 4 (RFC 9052, 3.1).
pub fn kid_of(protected: &[(Item, Item)]) -> Option<&[u8]>
    ensures { option_copied result ≡ kid_by (value_at 4 protected.now) }
{
    match find(4, protected) {
        Some(item) => bytes_of(&item.node),
        None => None,
    }
}

fn name(alloc: Global, node: &Node) -> Result<Option<Text>, AllocError>
    ensures { IfOk result (λ name. name ≡ name_in (out-Node node.now)) }
{
    match node {
        Node::Text(text) => {
            if text.len() > 0 && text.len() <= 1024 {
                return Ok(Some(Text::from_str(alloc, text.as_str())?));
            }
            Ok(None)
        }
        _ => Ok(None),
    }
}

/// The text of claim n.
pub fn text_claim(alloc: Global, n: u8, item: &Item) -> Result<Text, ParseStop>
    ensures { AnswersAs result (name_of n item.now) }
{
    match name(alloc, &item.node) {
        Ok(Some(text)) => Ok(text),
        Ok(None) => Err(ParseStop::BadClaim(n)),
        Err(_) => Err(ParseStop::OutOfMemory),
    }
}

fn moment(node: &Node) -> Option<u64>
    ensures { result ≡ moment_in (out-Node node.now) }
{
    match node {
        Node::Uint(m) => {
            if *m <= 9_223_372_036_854_775_807 {
                return Some(*m);
            }
            None
        }
        _ => None,
    }
}

fn moment_claim(n: u8, claims: &[(Item, Item)]) -> Result<Option<u64>, ParseStop>
    ensures { AnswersAs result (moment_of n claims.now) }
{
    match find(u64::from(n), claims) {
        Some(item) => match moment(&item.node) {
            Some(m) => Ok(Some(m)),
            None => Err(ParseStop::BadClaim(n)),
        },
        None => Ok(None),
    }
}

/// The moments exp, nbf and iat (RFC 8392, 3.1.4 to 3.1.6).
#[tactic(auto, unfolding(crate::specs::Claims::moments_of))]
pub fn moment_claims(
    claims: &[(Item, Item)],
) -> Result<(Option<u64>, Option<u64>, Option<u64>), ParseStop>
    ensures { AnswersAs result (moments_of claims.now) }
{
    let exp = moment_claim(4, claims)?;
    let nbf = moment_claim(5, claims)?;
    let iat = moment_claim(6, claims)?;
    Ok((exp, nbf, iat))
}

/// The alg, beside label 1 (RFC 9052, 3.1).
pub fn alg_of(alloc: Global, protected: &[(Item, Item)]) -> Result<Option<Label>, AllocError>
    ensures { IfOk result (λ alg. alg ≡ alg_by (value_at 1 protected.now)) }
{
    match find(1, protected) {
        Some(item) => label_of(alloc, item),
        None => Ok(None),
    }
}

fn type_by(alloc: Global, node: &Node) -> Result<ContentType, AllocError>
    ensures { IfOk result (λ kind. kind ≡ type_in (out-Node node.now)) }
{
    match node {
        Node::Uint(n) => Ok(ContentType::Number(*n)),
        Node::Text(text) => Ok(ContentType::Named(Text::from_str(alloc, text.as_str())?)),
        _ => Ok(ContentType::Absent),
    }
}

/// The content type, beside label 3 (RFC 9052, 3.1).
pub fn type_of(alloc: Global, protected: &[(Item, Item)]) -> Result<ContentType, AllocError>
    ensures { IfOk result (λ kind. kind ≡ type_beside (value_at 3 protected.now)) }
{
    match find(3, protected) {
        Some(item) => type_by(alloc, &item.node),
        None => Ok(ContentType::Absent),
    }
}
