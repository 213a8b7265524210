// The form that a document's bytes are printed as.

ghost use Rattle.std.specs.Prelude.{◌≡◌, ◌≤◌, Some, Ok, IfOk};
ghost use Rattle.std.specs.String.{string_bytes};
ghost use Rattle.toml.specs.Data.{members_depth};
ghost use Rattle.toml.specs.Parse.{parse_document};
ghost use Rattle.toml.specs.View.{table_view};
ghost use Rattle.scitt_forms.specs.Trusts.{trust_item_said};
ghost use Rattle.scitt_forms.specs.Writing.{item_said};
ghost use Rattle.shown_forms.specs.Showing.{ReadsBack, ReadsTrustBack, ShownOf, ShowsDocument, ShowsPolicy, ShowsTrust};
ghost use Rattle.shown_forms.specs.Trusts.{trust_item};

use crate::policy::form_of;
use crate::trust::form_of as trust_form;
use cbor_core::strict_spelling_is_unique;
use policy_rules::{
    Policy, PolicyStop, decode, documents_are_spelled_once, documents_have_one_answer,
};
use relying_party::{Trust, TrustStop, trust_files_have_one_answer};
use std::alloc::{AllocError, Global};
use toml::Table;

/// Why no form is printed.
#[derive(Debug, Clone, Copy, PartialEq, Eq)]
pub enum ShowStop {
    /// The bytes are no such document.
    NoDocument,
    /// The document has no form: a number in it is above 9,223,372,036,854,775,807, or a condition more than 8 deep.
    NoForm,
    /// Memory ran out.
    OutOfMemory,
}

// The text of a form.
fn text_of(alloc: Global, table: &Table) -> Result<String, AllocError>
    requires { members_depth (table_view table.now) ≤ 18 }
    ensures { IfOk result (λ text. parse_document (string_bytes text) ≡ Some (table_view table.now)) }
{
    match toml::table_to_string(alloc, table) {
        Ok(text) => Ok(text),
        Err(_) => Err(AllocError),
    }
}

fn shown(alloc: Global, policy: &Policy) -> Result<String, ShowStop>
    ensures { ShownOf policy.now result }
{
    match form_of(alloc, policy) {
        Ok(Some(table)) => match text_of(alloc, &table) {
            Ok(text) => Ok(text),
            Err(_) => Err(ShowStop::OutOfMemory),
        },
        Ok(None) => Err(ShowStop::NoForm),
        Err(_) => Err(ShowStop::OutOfMemory),
    }
}

/// The form, a text in TOML 1.0, of the policy that bytes strictly spell; what is written of this text is these bytes.
///
/// `NoDocument` comes exactly where they are no policy document, and `NoForm` where it has a number above 9,223,372,036,854,775,807.
pub fn show_policy(alloc: Global, bytes: &[u8]) -> Result<String, ShowStop>
    ensures { ShowsPolicy bytes.now result }
{
    documents_are_spelled_once();
    documents_have_one_answer();
    match decode(alloc, bytes) {
        Ok(policy) => shown(alloc, &policy),
        Err(PolicyStop::Cbor(_fault)) => Err(ShowStop::NoDocument),
        Err(PolicyStop::BadPolicy(_place)) => Err(ShowStop::NoDocument),
        Err(PolicyStop::OutOfMemory) => Err(ShowStop::OutOfMemory),
    }
}

fn trust_text(alloc: Global, trust: &Trust) -> Result<String, AllocError>
    ensures { IfOk result (λ text. item_said trust_item_said (string_bytes text) ≡ Ok (trust_item trust.now)) }
{
    let table = trust_form(alloc, trust)?;
    text_of(alloc, &table)
}

/// The form, a text in TOML 1.0, of the trust file that bytes strictly spell; what is written of this text is these bytes.
///
/// `NoDocument` comes exactly where they are no trust file, and `NoForm` never.
pub fn show_trust(alloc: Global, bytes: &[u8]) -> Result<String, ShowStop>
    ensures { ShowsTrust bytes.now result }
{
    trust_files_have_one_answer();
    match Trust::decode(alloc, bytes) {
        Ok(trust) => match trust_text(alloc, &trust) {
            Ok(text) => Ok(text),
            Err(_) => Err(ShowStop::OutOfMemory),
        },
        Err(TrustStop::Cbor(_fault)) => Err(ShowStop::NoDocument),
        Err(TrustStop::BadTrust) => Err(ShowStop::NoDocument),
        Err(TrustStop::OutOfMemory) => Err(ShowStop::OutOfMemory),
    }
}

/// The form of the policy, or else of the trust file, that bytes strictly spell. No bytes are both: a policy has five parts, and a trust
/// file three.
pub fn show_document(alloc: Global, bytes: &[u8]) -> Result<String, ShowStop>
    ensures { ShowsDocument bytes.now result }
{
    match show_policy(alloc, bytes) {
        Ok(text) => Ok(text),
        Err(ShowStop::NoDocument) => show_trust(alloc, bytes),
        Err(ShowStop::NoForm) => Err(ShowStop::NoForm),
        Err(ShowStop::OutOfMemory) => Err(ShowStop::OutOfMemory),
    }
}

/// A law: what is written of the text that a policy's bytes are printed as is these bytes.
pub fn shown_policies_read_back()
    ensures { ReadsBack }
{
    documents_are_spelled_once();
    strict_spelling_is_unique();
}

/// A law: what is written of the text that a trust file's bytes are printed as is these bytes.
pub fn shown_trust_files_read_back()
    ensures { ReadsTrustBack }
{
    strict_spelling_is_unique();
}
