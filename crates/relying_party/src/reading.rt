// Trust files, as items spell them.

ghost use Rattle.std.specs.Prelude.{◌≡◌, [], IfOk};
ghost use Rattle.relying_party.specs.TrustFiles.{key_in, service_in, issuer_in, each_onto, list_in, trust_in};

use crate::trust::{Issuer, Service, Trust};
use cbor_core::{Bytes, Item, Text, array_of, bytes_of, is_uint, text_of};
use hss_keys::Key60;
use sqlite_items::Items;
use std::alloc::{AllocError, Global};

fn key_of(item: &Item) -> Option<Key60>
    ensures { result ≡ key_in item.now }
{
    match bytes_of(item)?.as_array::<60>() {
        Some(key) => Some(*key),
        None => None,
    }
}

fn service_of(alloc: Global, item: &Item) -> Result<Option<Service>, AllocError>
    ensures { IfOk result (λ service. service ≡ service_in item.now) }
{
    let Some([name, key]) = array_of(item) else {
        return Ok(None);
    };
    let Some(name) = text_of(name) else {
        return Ok(None);
    };
    let Some(key) = key_of(key) else {
        return Ok(None);
    };
    Ok(Some(Service::new(Text::from_str(alloc, name)?, key)))
}

fn issuer_of(alloc: Global, item: &Item) -> Result<Option<Issuer>, AllocError>
    ensures { IfOk result (λ issuer. issuer ≡ issuer_in item.now) }
{
    let Some([iss, kid, key]) = array_of(item) else {
        return Ok(None);
    };
    let Some(iss) = text_of(iss) else {
        return Ok(None);
    };
    let Some(kid) = bytes_of(kid) else {
        return Ok(None);
    };
    let Some(key) = key_of(key) else {
        return Ok(None);
    };
    let iss = Text::from_str(alloc, iss)?;
    let kid = Bytes::from_slice(alloc, kid)?;
    Ok(Some(Issuer { iss, kid, key }))
}

fn each_service(alloc: Global, items: &[Item]) -> Result<Option<Items<Service>>, AllocError>
    ensures { IfOk result (λ services. services ≡ each_onto service_in [] items.now) }
{
    let mut services = Items::new(alloc);
    for item in items {
        match service_of(alloc, item)? {
            Some(service) => services.push(service)?,
            None => return Ok(None),
        }
    }
    Ok(Some(services))
}

fn each_issuer(alloc: Global, items: &[Item]) -> Result<Option<Items<Issuer>>, AllocError>
    ensures { IfOk result (λ issuers. issuers ≡ each_onto issuer_in [] items.now) }
{
    let mut issuers = Items::new(alloc);
    for item in items {
        match issuer_of(alloc, item)? {
            Some(issuer) => issuers.push(issuer)?,
            None => return Ok(None),
        }
    }
    Ok(Some(issuers))
}

// 1 to 64 services.
fn services_of(alloc: Global, item: &Item) -> Result<Option<Items<Service>>, AllocError>
    ensures { IfOk result (λ services. services ≡ list_in service_in 1 64 item.now) }
{
    let Some(items) = array_of(item) else {
        return Ok(None);
    };
    if items.is_empty() || items.len() > 64 {
        return Ok(None);
    }
    each_service(alloc, items)
}

// At most 256 issuers.
fn issuers_of(alloc: Global, item: &Item) -> Result<Option<Items<Issuer>>, AllocError>
    ensures { IfOk result (λ issuers. issuers ≡ list_in issuer_in 0 256 item.now) }
{
    let Some(items) = array_of(item) else {
        return Ok(None);
    };
    if items.len() > 256 {
        return Ok(None);
    }
    each_issuer(alloc, items)
}

/// The trust file that an item is.
#[tactic(auto, unfolding(crate::specs::TrustFiles::trust_in))]
pub(crate) fn trust_of(alloc: Global, item: &Item) -> Result<Option<Trust>, AllocError>
    ensures { IfOk result (λ trust. trust ≡ trust_in item.now) }
{
    let Some([form, services, issuers]) = array_of(item) else {
        return Ok(None);
    };
    if !is_uint(1, form) {
        return Ok(None);
    }
    let Some(services) = services_of(alloc, services)? else {
        return Ok(None);
    };
    let Some(issuers) = issuers_of(alloc, issuers)? else {
        return Ok(None);
    };
    Ok(Some(Trust { services, issuers }))
}
