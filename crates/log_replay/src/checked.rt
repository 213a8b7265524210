// A statement with what its judgement needs.

ghost use Rattle.std.specs.Prelude.{◌≡◌, ◌≤◌, Some, IfOk, IfErr, length, option_map};
ghost use Rattle.std.specs.Option.{ForSome};
ghost use Rattle.cbor_core.specs.Limits.{longest_string};
ghost use Rattle.cose_sign1.specs.OneTbs.{tbs_of};
ghost use Rattle.cose_sign1.specs.Tbs.{tbs_len};
ghost use Rattle.hss_keys.specs.Functions.{hss_verifies};
ghost use Rattle.policy_rules.specs.Documents.{document_of as document_by, PolicyOf};
ghost use Rattle.policy_rules.specs.Spelling.{policy_item};
ghost use Rattle.statement.specs.Said.{said_of, logged_statement};
ghost use Rattle.log_replay.specs.Spelling.{HasBytes};
ghost use Rattle.log_replay.specs.Judging.{facts_of as facts_said, kind_of as kind_said, is_policy as is_policy_said, document_in, signed_text_of};

use crate::keys::verifies;
use cbor_core::{Bytes, Text, strict_items_are_spelled, strict_spelling_is_unique, zeros};
use cose_sign1::{sig_structure_is_one, to_be_signed_into, to_be_signed_len};
use hss_keys::Key60;
use policy_rules::{
    ContentKind, Facts, Policy, PolicyStop, decode, documents_are_spelled_once,
    documents_have_one_answer,
};
use statement::{ContentType, Statement, logged_form_is_the_statement};
use std::alloc::{AllocError, Global};

/// A statement with what its judgement needs, which is made without a log.
#[derive(Drop)]
pub struct Checked {
    pub statement: Statement,
    /// What the rules of a policy are asked about.
    pub facts: Facts,
    /// The Sig_structure (RFC 9052, 4.4), which the statement's signature is over.
    pub signed: Bytes,
    /// The document that the payload of a policy statement is, if it is one.
    pub document: Option<Policy>,
    /// A key, and whether the statement's signature verifies under it.
    pub pair: Option<(Key60, bool)>,
    ghost facts_are: { facts ≡ facts_said (said_of statement) },
    ghost signed_is: { signed ≡ signed_text_of (said_of statement) },
    ghost document_is: { document ≡ document_in (said_of statement) },
    ghost document_bytes: { ForSome document (λ p. HasBytes (policy_item p)) },
    ghost truth: { ForSome pair (λ p. p.1 ≡ hss_verifies p.0 statement.signature signed) },
}

fn kind_of(alloc: Global, kind: &ContentType) -> Result<ContentKind, AllocError>
    ensures { IfOk result (λ copy. copy ≡ kind_said kind.now) }
{
    match kind {
        ContentType::Absent => Ok(ContentKind::Absent),
        ContentType::Named(text) => Ok(ContentKind::Named(Text::from_str(alloc, text.as_str())?)),
        ContentType::Number(n) => Ok(ContentKind::Number(*n)),
    }
}

fn facts_of(alloc: Global, statement: &Statement) -> Result<Facts, AllocError>
    ensures { IfOk result (λ facts. facts ≡ facts_said (said_of statement.now)) }
{
    let issuer = Text::from_str(alloc, statement.issuer.as_str())?;
    let subject = Text::from_str(alloc, statement.subject.as_str())?;
    let content_type = kind_of(alloc, &statement.content_type)?;
    Ok(Facts {
        issuer,
        subject,
        content_type,
        payload_len: statement.payload.as_slice().len() as u64,
    })
}

fn put_structure(protected: &[u8], payload: &[u8], buf: &mut [u8])
    requires protected_fits { length protected.now ≤ longest_string }
    requires payload_fits { length payload.now ≤ longest_string }
    requires room { length buf.old ≡ tbs_len protected.now payload.now }
    ensures { buf.new ≡ tbs_of protected.now payload.now }
{
    sig_structure_is_one();
    to_be_signed_into(protected, payload, buf);
}

// The Sig_structure of a protected string and a payload.
pub(crate) fn structure_of(
    alloc: Global,
    protected: &[u8],
    payload: &[u8],
) -> Result<Bytes, AllocError>
    requires protected_fits { length protected.now ≤ longest_string }
    requires payload_fits { length payload.now ≤ longest_string }
    ensures { IfOk result (λ text. text ≡ tbs_of protected.now payload.now) }
{
    sig_structure_is_one();
    let mut bytes = zeros(alloc, to_be_signed_len(protected, payload))?;
    put_structure(protected, payload, &mut bytes);
    Ok(Bytes::from_vec(bytes))
}

const POLICY_TYPE: &[u8] = b"application/vnd.scitt-policy+cbor";

/// Whether a statement is a policy statement.
pub(crate) fn is_policy(statement: &Statement) -> bool
    ensures { result ≡ is_policy_said (said_of statement.now) }
{
    match &statement.content_type {
        ContentType::Named(text) => text.as_slice() == POLICY_TYPE,
        _ => false,
    }
}

// A policy that was read has strict bytes, those that it was read from.
fn has_bytes(policy: &Policy, bytes: &[u8])
    requires { PolicyOf bytes.now policy.now }
    ensures { HasBytes (policy_item policy.now) }
{
    documents_are_spelled_once();
    strict_items_are_spelled();
    strict_spelling_is_unique();
    let _len = bytes.len();
}

// The document that bytes are, if they are one.
pub(crate) fn document_of(alloc: Global, bytes: &[u8]) -> Result<Option<Policy>, AllocError>
    ensures value { IfOk result (λ document. document ≡ document_by bytes.now) }
    ensures bytes { IfOk result (λ document. ForSome document (λ p. HasBytes (policy_item p))) }
{
    documents_have_one_answer();
    match decode(alloc, bytes) {
        Ok(policy) => {
            has_bytes(&policy, bytes);
            Ok(Some(policy))
        }
        Err(PolicyStop::Cbor(_)) => Ok(None),
        Err(PolicyStop::BadPolicy(_)) => Ok(None),
        Err(PolicyStop::OutOfMemory) => Err(AllocError),
    }
}

/// The document that the payload of a policy statement is.
pub(crate) fn document_of_statement(
    alloc: Global,
    statement: &Statement,
) -> Result<Option<Policy>, AllocError>
    ensures value { IfOk result (λ document. document ≡ document_in (said_of statement.now)) }
    ensures bytes { IfOk result (λ document. ForSome document (λ p. HasBytes (policy_item p))) }
{
    if is_policy(statement) {
        return document_of(alloc, statement.payload.as_slice());
    }
    Ok(None)
}

/// A law: a statement's logged form reads as that statement, and is short.
pub(crate) fn reads_again(statement: &Statement)
    ensures reads { logged_statement statement.now.logged ≡ Some (said_of statement.now) }
    ensures short { length statement.now.logged ≤ 4194304 }
{
    logged_form_is_the_statement();
}

#[derive(Drop)]
struct Found {
    facts: Facts,
    signed: Bytes,
    document: Option<Policy>,
}

fn found_of(alloc: Global, statement: &Statement) -> Result<Found, AllocError>
    ensures facts { IfOk result (λ found. found.facts ≡ facts_said (said_of statement.now)) }
    ensures signed { IfOk result (λ found. found.signed ≡ signed_text_of (said_of statement.now)) }
    ensures document { IfOk result (λ found. found.document ≡ document_in (said_of statement.now)) }
    ensures bytes { IfOk result (λ found. ForSome found.document (λ p. HasBytes (policy_item p))) }
{
    let facts = facts_of(alloc, statement)?;
    let signed = structure_of(
        alloc,
        statement.protected.as_slice(),
        statement.payload.as_slice(),
    )?;
    let document = document_of_statement(alloc, statement)?;
    Ok(Found {
        facts,
        signed,
        document,
    })
}

fn pair_of(key: Option<Key60>, statement: &Statement, signed: &Bytes) -> Option<(Key60, bool)>
    ensures key { option_map (λ p. p.0) result ≡ key }
    ensures truth { ForSome result (λ p. p.1 ≡ hss_verifies p.0 statement.now.signature signed.now) }
{
    match key {
        Some(key) => Some((
            key,
            verifies(&key, statement.signature.as_slice(), signed.as_slice()),
        )),
        None => None,
    }
}

/// Makes a statement ready to be judged, outside any turn: its facts, its Sig_structure, its document, and with a key whether its
/// signature verifies under it. Without memory it gives the statement back.
pub fn check(
    alloc: Global,
    statement: Statement,
    key: Option<Key60>,
) -> Result<Checked, (Statement, AllocError)>
    ensures statement { IfOk result (λ checked. checked.statement ≡ statement) }
    ensures pair { IfOk result (λ checked. option_map (λ p. p.0) checked.pair ≡ key) }
    ensures err { IfErr result (λ stop. stop.0 ≡ statement) }
{
    let Ok(found) = found_of(alloc, &statement) else {
        return Err((statement, AllocError));
    };
    let Found {
        facts,
        signed,
        document,
    } = found;
    let pair = pair_of(key, &statement, &signed);
    Ok(Checked {
        statement,
        facts,
        signed,
        document,
        pair,
    })
}
