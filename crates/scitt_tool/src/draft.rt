// A statement before it is signed.

ghost use Rattle.std.specs.Prelude.{◌≡◌, ◌≤◌, length, IfOk, true};
ghost use Rattle.sha2.specs.Sha256.{sha256};
ghost use Rattle.hss_keys.specs.Signers.{hss_sig_len};
ghost use Rattle.hss_keys.specs.Signing.{hss_public, hss_sig};
ghost use Rattle.cbor_core.specs.Limits.{longest_string};
ghost use Rattle.cose_sign1.specs.OneTbs.{tbs_of};
ghost use Rattle.cose_sign1.specs.Tbs.{tbs_len};
ghost use Rattle.scitt_draft.specs.Drafts.{claimed, names_fit as are_names_fit};
ghost use Rattle.scitt_tool.specs.Drafts.{IsDraft, DraftOf, Drafts, SaysStatement};

use cbor_core::{Bytes, zeros};
use command_line::Answer;
use cose_sign1::{bare_into, bare_len, sig_structure_is_one, to_be_signed_into, to_be_signed_len};
use hss_keys::Signer;
use scitt_draft::{Claims, kid_of, protected_string};
use std::alloc::{AllocError, Global};

/// The most bytes that a statement's logged form has.
const MOST: usize = 4_194_304;

/// A statement that lacks its signature alone, and room for that.
#[derive(Drop)]
pub(crate) struct Draft {
    protected: Bytes,
    text: Vec<u8>,
    signature: Vec<u8>,
    statement: Vec<u8>,
}

fn put_structure(protected: &[u8], payload: &[u8], buf: &mut [u8])
    requires short { length protected.now ≤ longest_string }
    requires small { length payload.now ≤ longest_string }
    requires room { length buf.old ≡ tbs_len protected.now payload.now }
    ensures text { buf.new ≡ tbs_of protected.now payload.now }
    ensures len { length buf.new ≡ tbs_len protected.now payload.now }
{
    sig_structure_is_one();
    to_be_signed_into(protected, payload, buf);
}

// The Sig_structure.
fn structure(alloc: Global, protected: &[u8], payload: &[u8]) -> Result<Vec<u8>, AllocError>
    requires short { length protected.now ≤ longest_string }
    requires small { length payload.now ≤ longest_string }
    ensures { IfOk result (λ text. text.items ≡ tbs_of protected.now payload.now) }
{
    let mut text = zeros(alloc, to_be_signed_len(protected, payload))?;
    put_structure(protected, payload, &mut text);
    Ok(text)
}

// The draft of a protected string and a payload, with room for a signature of so many bytes. None where the logged form is too long.
fn draft_of(
    alloc: Global,
    protected: Bytes,
    payload: &[u8],
    sig_len: usize,
) -> Result<Option<Draft>, AllocError>
    requires short { length protected ≤ longest_string }
    requires few { sig_len ≤ 26648 }
    ensures { IfOk result (DraftOf protected payload.now sig_len) }
{
    if payload.len() > MOST {
        return Ok(None);
    }
    let signature = zeros(alloc, sig_len)?;
    let len = bare_len(protected.as_slice(), payload, &signature);
    if len > MOST {
        return Ok(None);
    }
    let text = structure(alloc, protected.as_slice(), payload)?;
    let statement = zeros(alloc, len)?;
    Ok(Some(Draft {
        protected,
        text,
        signature,
        statement,
    }))
}

/// The statement of these claims and this payload under the signer's key, before it is signed. None where its logged form
/// is too long.
pub(crate) fn make_draft(
    alloc: Global,
    claims: &Claims<'_>,
    payload: &[u8],
    signer: &Signer,
) -> Result<Option<Draft>, AllocError>
    requires { are_names_fit (claimed claims.now) ≡ true }
    ensures { IfOk result (Drafts (claimed claims.now)
        (sha256 (hss_public signer.now.levels signer.now.id signer.now.seed)) signer.now.levels payload.now) }
{
    let kid = kid_of(&signer.public());
    let protected = protected_string(alloc, claims, &kid)?;
    draft_of(alloc, protected, payload, signer.sig_len())
}

impl Draft {
    /// The statement with the signature of this index, which is prepared.
    pub(crate) fn signed(self, signer: &Signer, index: u64, payload: &[u8]) -> Answer
        requires prepared { index ≡ signer.now.prepared }
        requires draft { IsDraft payload.now (hss_sig_len signer.now.levels) self }
        ensures { SaysStatement self.protected payload.now
            (hss_sig signer.now.levels signer.now.id signer.now.seed index (tbs_of self.protected payload.now)) result }
    {
        let Draft {
            protected,
            text,
            mut signature,
            mut statement,
        } = self;
        let _len = signer.sig_len();
        signer.sign_into(index, &text, &mut signature);
        bare_into(protected.as_slice(), payload, &signature, &mut statement);
        Answer::bytes(0, Bytes::from_vec(statement))
    }
}
