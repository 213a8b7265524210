// The statements of a generated log.

ghost use Rattle.std.specs.Prelude.{◌≡◌, ◌∷◌, ◌++◌, [], ◌<◌, ◌≤◌, ◌%◌, IfOk, OnOk, length, true};
ghost use Rattle.scitt_draft.specs.Drafts.{claimed, names_fit};
ghost use Rattle.scitt_draft.specs.Named.{IsKeyOf, IsShort, issuer_levels as levels_of_issuers};
ghost use Rattle.scitt_draft.specs.Stated as stated;

use crate::claims::Claims;
use crate::keys::{governor_levels, holder_of, issuer_levels, signer_of};
use crate::policy::document;
use crate::signing::make_statement;
use cbor_core::Bytes;
use hss_keys::Signer;
use lms_ots::u32str;
use policy_rules::Holder;
use sha2::{Digest, Sha256};
use sqlite_items::Items;
use std::alloc::{AllocError, Global};
use std::marker::Model;

/// The keys of the governor and of the three issuers.
#[derive(Drop)]
pub struct Parties {
    governor: Signer,
    zero: Signer,
    one: Signer,
    two: Signer,
}

impl Model for Parties {
    ghost use Rattle.scitt_draft.specs.Named.{IsKeyOf, governor_levels, issuer_levels};
    ghost use Rattle.scitt_draft.specs.Stated as stated;

    ghost Value = { Unit {0} };

    ghost view = { λ p. tt };

    ghost invariant = { λ p. IsKeyOf governor_levels stated.governor p.governor × IsKeyOf issuer_levels (stated.issuer 0) p.zero
        × IsKeyOf issuer_levels (stated.issuer 1) p.one × IsKeyOf issuer_levels (stated.issuer 2) p.two };
}

fn issuer_name(n: u32) -> &'static str
    requires { n < 3 }
    ensures name { result.now ≡ stated.issuer n }
    ensures some { 1 ≤ length result.now }
    ensures few { length result.now ≤ 1024 }
{
    match n {
        0 => "issuer-0",
        1 => "issuer-1",
        2 => "issuer-2",
        _ => unreachable!(),
    }
}

fn subject_name(n: u32) -> &'static str
    requires { n < 7 }
    ensures name { result.now ≡ stated.subject n }
    ensures some { 1 ≤ length result.now }
    ensures few { length result.now ≤ 1024 }
{
    match n {
        0 => "pkg-0",
        1 => "pkg-1",
        2 => "pkg-2",
        3 => "pkg-3",
        4 => "pkg-4",
        5 => "pkg-5",
        6 => "pkg-6",
        _ => unreachable!(),
    }
}

fn issuer(alloc: Global, n: u32) -> Result<Signer, AllocError>
    requires { n < 3 }
    ensures { IfOk result (IsKeyOf levels_of_issuers (stated.issuer n)) }
{
    signer_of(alloc, issuer_name(n), issuer_levels())
}

fn push_holder(
    alloc: Global,
    holders: &mut Items<Holder>,
    n: u32,
    signer: &Signer,
) -> Result<(), AllocError>
    requires few { n < 3 }
    requires key { IsKeyOf levels_of_issuers (stated.issuer n) signer.now }
    ensures pushed { OnOk result (holders.new ≡ holders.old ++ stated.issuer_holder n ∷ []) }
    ensures short { OnOk result (IsShort (stated.issuer_holder n)) }
{
    holders.push(holder_of(alloc, issuer_name(n), signer)?)?;
    Ok(())
}

fn policy_claims() -> Claims<'static>
    ensures claims { claimed result ≡ stated.policy_claims }
    ensures names { names_fit (claimed result) ≡ true }
{
    Claims {
        issuer: "governor",
        subject: "policy",
        content_type: "application/vnd.scitt-policy+cbor",
        not_before: None,
        expires: None,
    }
}

fn claims_of(j: u32) -> Claims<'static>
    ensures claims { claimed result ≡ stated.claims_of j }
    ensures names { names_fit (claimed result) ≡ true }
{
    Claims {
        issuer: issuer_name(j % 3),
        subject: subject_name(j % 7),
        content_type: "application/octet-stream",
        not_before: None,
        expires: None,
    }
}

impl Parties {
    /// Makes the keys, which takes some time. The only error is the want of memory.
    pub fn new(alloc: Global) -> Result<Parties, AllocError> {
        Ok(Parties {
            governor: signer_of(alloc, "governor", governor_levels())?,
            zero: issuer(alloc, 0)?,
            one: issuer(alloc, 1)?,
            two: issuer(alloc, 2)?,
        })
    }

    /// The governor, whom the log is begun with.
    pub fn governor(&self, alloc: Global) -> Result<Holder, AllocError>
        ensures holder { IfOk result (λ holder. holder ≡ stated.governor_holder) }
        ensures short { OnOk result (IsShort stated.governor_holder) }
    {
        holder_of(alloc, "governor", &self.governor)
    }

    fn issuers(&self, alloc: Global) -> Result<Items<Holder>, AllocError>
        ensures holders { IfOk result (λ holders. holders ≡ stated.issuers) }
        ensures zero { OnOk result (IsShort (stated.issuer_holder 0)) }
        ensures one { OnOk result (IsShort (stated.issuer_holder 1)) }
        ensures two { OnOk result (IsShort (stated.issuer_holder 2)) }
    {
        let mut holders = Items::new(alloc);
        push_holder(alloc, &mut holders, 0, &self.zero)?;
        push_holder(alloc, &mut holders, 1, &self.one)?;
        push_holder(alloc, &mut holders, 2, &self.two)?;
        Ok(holders)
    }

    /// The governor's policy statement.
    pub fn policy_statement(&mut self, alloc: Global) -> Result<Bytes, AllocError>
        ensures statement { IfOk result (λ bytes. bytes ≡ stated.policy_statement) }
        ensures few { IfOk result (λ bytes. length bytes ≤ 50000) }
    {
        let payload = document(alloc, self.governor(alloc)?, self.issuers(alloc)?)?;
        let claims = policy_claims();
        make_statement(alloc, &claims, payload.as_slice(), &mut self.governor, 0)
    }

    /// Statement j, counted from 0: each issuer in its turn, by its key's indices from 0 upwards.
    pub fn statement(&mut self, alloc: Global, j: u32) -> Result<Bytes, AllocError>
        requires { j < 3072 }
        ensures statement { IfOk result (λ bytes. bytes ≡ stated.statement j) }
        ensures few { IfOk result (λ bytes. length bytes ≤ 50000) }
    {
        match j % 3 {
            0 => numbered(alloc, &mut self.zero, j),
            1 => numbered(alloc, &mut self.one, j),
            2 => numbered(alloc, &mut self.two, j),
            _ => unreachable!(),
        }
    }
}

fn numbered(alloc: Global, signer: &mut Signer, j: u32) -> Result<Bytes, AllocError>
    requires few { j < 3072 }
    requires key { IsKeyOf levels_of_issuers (stated.issuer (j % 3)) signer.old }
    ensures statement { IfOk result (λ bytes. bytes ≡ stated.statement j) }
    ensures few { IfOk result (λ bytes. length bytes ≤ 50000) }
    ensures key { IsKeyOf levels_of_issuers (stated.issuer (j % 3)) signer.new }
{
    let claims = claims_of(j);
    let payload = Sha256::digest(u32str(j).as_slice());
    make_statement(alloc, &claims, payload.as_slice(), signer, u64::from(j / 3))
}
