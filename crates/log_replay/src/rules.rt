// The rules of records, by what a state keeps.

ghost use Rattle.std.specs.Prelude.{◌≡◌, ◌≤◌, ◌<◌, ◌+◌, ◌^◌, true, false, length, IsTrue, IfSome, IfNone, IfOk};
ghost use Rattle.std.specs.List.{list_all};
ghost use Rattle.cbor_core.specs.Rows.{first_row};
ghost use Rattle.hss_keys.specs.Levels.{capacity};
ghost use Rattle.hss_keys.specs.Functions.{hss_verifies};
ghost use Rattle.log_replay.specs.Seen.{heading_seen};
ghost use Rattle.log_replay.specs.WellMade.{fails_by, admits_by as admitted_by, judged_rule as rule_judged, is_within as within, is_signing_level, is_within_limits as within_limits, header_holds, reserve_holds, index_holds as holds_index};
ghost use Rattle.log_replay.specs.KeptRows.{kept_entry_rows, kept_batch_rows, kept_text};

use crate::keys::{index_of, is_of_levels, verifies};
use crate::parts::{BatchParts, Header, Heading};
use crate::signing::signed_text_of;
use crate::words::{Failing, Judgement, Why};
use hss_keys::Levels;
use lms_tree::{Level, height};
use merkle_tree::NodeTable;
use sha2::{Digest, Sha256};
use statement::Hash;
use std::alloc::{AllocError, Global};

impl Failing {
    /// A rule other than that of the verdict.
    pub(crate) fn by(why: Why) -> Failing
        ensures { result ≡ fails_by why }
    {
        Failing {
            why,
            recorded: 0,
            found: 0,
        }
    }
}

fn is_within(low: u64, high: u64, n: u64) -> bool
    ensures { result ≡ within low high n }
{
    low <= n && n <= high
}

fn all_sign(levels: &[Level]) -> bool
    ensures { result ≡ list_all is_signing_level levels.now }
{
    for level in levels {
        if height(*level) != 5 && height(*level) != 10 {
            return false;
        }
    }
    true
}

fn is_within_limits(heading: &Heading) -> bool
    ensures { result ≡ within_limits (heading_seen heading.now) }
{
    is_within(1, 128, heading.name.as_slice().len() as u64)
        && is_within(1, 1024, heading.governor.iss.as_slice().len() as u64)
        && is_within(1, 64, heading.governor.kid.as_slice().len() as u64)
        && is_within(1, 3, heading.levels.as_slice().len() as u64)
        && all_sign(heading.levels.as_slice())
        && is_within(1, 65536, heading.max_entries)
        && is_within(1, 64, heading.block)
}

/// The header, where it holds.
pub(crate) fn header_from(heading: Heading) -> Option<Header>
    ensures none { IfNone result (header_holds (heading_seen heading) ≡ false) }
    ensures holds { IfSome result (λ header. header_holds (heading_seen heading) ≡ true) }
    ensures same { IfSome result (λ header. header ≡ heading_seen heading) }
    ensures most { IfSome result (λ header. header.max_entries ≤ 65536) }
    ensures name_some { IfSome result (λ header. 1 ≤ length header.name) }
    ensures name_most { IfSome result (λ header. length header.name ≤ 128) }
    ensures iss { IfSome result (λ header. length header.governor.iss ≤ 1024) }
    ensures kid { IfSome result (λ header. length header.governor.kid ≤ 64) }
{
    if !is_within_limits(&heading) {
        return None;
    }
    let Some(levels) = Levels::of(heading.levels.as_slice()) else {
        return None;
    };
    if !is_of_levels(&levels, &heading.key) {
        return None;
    }
    Some(Header {
        name: heading.name,
        governor: heading.governor,
        key: heading.key,
        levels,
        max_entries: heading.max_entries as u32,
        block: heading.block as u32,
    })
}

/// Whether a reservation is above the last one, by no more than a block, and within the capacity.
pub(crate) fn reservation_holds(header: &Header, last: u64, upto: u64) -> bool
    ensures holds { result ≡ reserve_holds header.now last upto }
    ensures bound { IsTrue result → (last < upto) × (upto ≤ 1073741824) }
{
    last < upto && upto - last <= u64::from(header.block) && upto <= header.levels.capacity()
}

fn admits_by(rule: u16, judged: Judgement) -> bool
    ensures { result ≡ admitted_by rule judged }
{
    match judged {
        Judgement::Admit(found) => found == rule,
        _ => false,
    }
}

fn judged_rule(judged: Judgement) -> u16
    ensures { result ≡ rule_judged judged }
{
    match judged {
        Judgement::Known(_) => 0,
        Judgement::Admit(rule) => rule,
        Judgement::Deny(rule) => rule,
    }
}

/// What the rules on an entry are tried on, besides its judgement.
#[derive(Clone, Copy)]
pub(crate) struct Measures {
    /// The last entry's moment, the number of entries, and their logged bytes.
    pub last: u64,
    pub count: u64,
    pub logged: u64,
    /// The entry's moment, its rule and its logged bytes.
    pub at: u64,
    pub rule: u16,
    pub len: u64,
}

/// The first rule that an entry fails.
pub(crate) fn entry_fails(header: &Header, judged: Judgement, m: Measures) -> Option<Failing>
    requires count { m.count ≤ 65536 }
    requires logged { m.logged ≤ 536870912 }
    requires len { m.len < 2 ^ 63 }
    ensures rows { result ≡ first_row (kept_entry_rows header.now judged m.last m.count m.logged m.at m.rule m.len) }
    ensures room { IfNone result ((m.count < header.now.max_entries) × (m.logged + m.len ≤ 536870912)) }
{
    if m.at < m.last {
        return Some(Failing::by(Why::Moment));
    }
    if !admits_by(m.rule, judged) {
        return Some(Failing {
            why: Why::Verdict,
            recorded: m.rule,
            found: judged_rule(judged),
        });
    }
    if m.count + 1 > u64::from(header.max_entries) || m.logged + m.len > 536_870_912 {
        return Some(Failing::by(Why::Full));
    }
    None
}

fn index_holds(reserved: u64, used: u64, index: u64, spelled: Option<u64>) -> bool
    ensures holds { result ≡ holds_index reserved used index spelled }
    ensures bound { IsTrue result → (index < reserved) × (used ≤ index) }
{
    match spelled {
        Some(found) => found == index && found < reserved && used <= found,
        None => false,
    }
}

// Whether the service's key verifies the signed text over the root of the leaves with one more.
fn is_sealed(
    alloc: Global,
    header: &Header,
    signature: &[u8],
    table: &NodeTable,
    hash: &Hash,
) -> Result<bool, AllocError>
    requires few { length table.now.leaves < 4294967295 }
    requires name_some { 1 ≤ length header.now.name }
    requires name_most { length header.now.name ≤ 128 }
    ensures { IfOk result (λ sealed. sealed ≡ hss_verifies header.now.key signature.now (kept_text header.now table.now.leaves hash.now)) }
{
    let root = table.root_with(&[*hash]);
    let kid = Sha256::digest(header.key.as_slice());
    let text = signed_text_of(alloc, &header.name, &kid, table.size() + 1, &root)?;
    Ok(verifies(&header.key, signature, text.as_slice()))
}

/// The first rule that a Batch fails whose entry fails none, by the entry's leaf hash.
pub(crate) fn batch_fails(
    alloc: Global,
    header: &Header,
    reserved: u64,
    used: u64,
    table: &NodeTable,
    batch: &BatchParts,
    hash: &Hash,
) -> Result<Option<Failing>, AllocError>
    requires few { length table.now.leaves < 4294967295 }
    requires name_some { 1 ≤ length header.now.name }
    requires name_most { length header.now.name ≤ 128 }
    ensures rows { IfOk result (λ o. o ≡ first_row (kept_batch_rows header.now reserved used table.now.leaves batch.now hash.now)) }
    ensures index { IfOk result (λ o. IfNone o ((batch.now.index < reserved) × (used ≤ batch.now.index))) }
{
    let spelled = index_of(&header.levels, batch.signature.as_slice());
    if !index_holds(reserved, used, batch.index, spelled) {
        return Ok(Some(Failing::by(Why::Index)));
    }
    if is_sealed(alloc, header, batch.signature.as_slice(), table, hash)? {
        Ok(None)
    } else {
        Ok(Some(Failing::by(Why::Signature)))
    }
}
