// Trust files as forms say them.

ghost use Rattle.std.specs.Prelude.{◌≡◌, Ok, Err, [], IfOk};
ghost use Rattle.toml.specs.View.{view, array_view, table_view};
ghost use Rattle.scitt_forms.specs.Fields.{each_onto};
ghost use Rattle.scitt_forms.specs.Policies.{list_said};
ghost use Rattle.scitt_forms.specs.Trusts as told;

use crate::fields::{
    Said, all_known, as_items, as_members, form, key_at, placed, refusal, text_at, under,
};
use crate::items::{array, bytes, text, three, two, uint};
use crate::policy::holders_of;
use crate::refusal::{Place, Refusal, Why, Word};
use cbor_core::Item;
use policy_rules::Key60;
use sqlite_items::Items;
use std::alloc::{AllocError, Global};
use toml::value::Array;
use toml::{Table, Value};

fn service(alloc: Global, name: &str, key: &Key60) -> Result<Item, AllocError>
    ensures { IfOk result (λ item. item ≡ told.service name.now key.now) }
{
    let name = text(alloc, name)?;
    let key = bytes(alloc, key.as_slice())?;
    two(alloc, name, key)
}

fn with_name(alloc: Global, place: Place, name: &str, table: &Table) -> Said<Item>
    ensures { IfOk result (λ item. item ≡ told.with_name place (table_view table.now) name.now) }
{
    match key_at(place, table) {
        Ok(key) => Ok(Ok(service(alloc, name, &key)?)),
        Err(r) => Ok(Err(r)),
    }
}

fn service_of(alloc: Global, place: Place, table: &Table) -> Said<Item>
    ensures { IfOk result (λ item. item ≡ told.service_said place (table_view table.now)) }
{
    if !all_known(&[Word::Name, Word::Key], table) {
        return Ok(Err(refusal(place, Word::Keys, Why::Unknown)));
    }
    match text_at(place, Word::Name, table) {
        Ok(name) => with_name(alloc, place, name, table),
        Err(r) => Ok(Err(r)),
    }
}

fn service_at(alloc: Global, index: usize, value: &Value) -> Said<Item>
    ensures { IfOk result (λ item. item ≡ told.service_at index (view value.now)) }
{
    let place = placed(Word::Service, index);
    match as_members(place, Word::Service, value) {
        Ok(table) => service_of(alloc, place, table),
        Err(r) => Ok(Err(r)),
    }
}

fn each_service(alloc: Global, values: &Array) -> Said<Items<Item>>
    ensures { IfOk result (λ items. items ≡ each_onto told.service_at [] (array_view values.now)) }
{
    let mut items = Items::new(alloc);
    'values: for value in values {
        match service_at(alloc, items.len(), value)? {
            Ok(item) => items.push(item)?,
            Err(r) => return Ok(Err(r)),
        }
    }
    Ok(Ok(items))
}

fn services_of(alloc: Global, table: &Table) -> Said<Items<Item>>
    ensures { IfOk result (λ items. items ≡ list_said Word.Service told.service_at (table_view table.now)) }
{
    let Some(value) = under(table, Word::Service) else {
        return Ok(Ok(Items::new(alloc)));
    };
    match as_items(form(), Word::Service, value) {
        Ok(values) => each_service(alloc, values),
        Err(r) => Ok(Err(r)),
    }
}

fn with_services(alloc: Global, services: Items<Item>, table: &Table) -> Said<Item>
    ensures { IfOk result (λ item. item ≡ told.with_services (table_view table.now) services) }
{
    match holders_of(alloc, Word::Issuer, table)? {
        Ok(issuers) => Ok(Ok(three(alloc, uint(1), array(services), array(issuers))?)),
        Err(r) => Ok(Err(r)),
    }
}

/// The item of the trust file that a form says, or the first reason why it isn't taken: keys that no trust file has, then the services
/// and the issuers, each table in its order. `AllocError` is the want of memory alone.
pub fn trust_item(alloc: Global, table: &Table) -> Result<Result<Item, Refusal>, AllocError>
    ensures { IfOk result (λ item. item ≡ told.trust_item_said (table_view table.now)) }
{
    if !all_known(&[Word::Service, Word::Issuer], table) {
        return Ok(Err(refusal(form(), Word::Keys, Why::Unknown)));
    }
    match services_of(alloc, table)? {
        Ok(services) => with_services(alloc, services, table),
        Err(r) => Ok(Err(r)),
    }
}
