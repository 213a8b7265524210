// Policies as forms say them.

ghost use Rattle.std.specs.Prelude.{◌≡◌, Ok, Err, [], IfOk, option_map};
ghost use Rattle.policy_rules.specs.Spelling.{effect_number};
ghost use Rattle.toml.specs.View.{view, array_view, table_view};
ghost use Rattle.scitt_forms.specs.Fields.{each_onto, tables_under};
ghost use Rattle.scitt_forms.specs.Holders.{holder_at as holder_at_place};
ghost use Rattle.scitt_forms.specs.Policies as told;

use crate::conditions::cond_of;
use crate::fields::{
    Said, all_known, as_items, as_members, form, number_at, placed, refusal, under,
};
use crate::holders::holder_at;
use crate::items::{array, three, uint};
use crate::refusal::{Place, Refusal, Why, Word};
use cbor_core::Item;
use sqlite_items::Items;
use std::alloc::{AllocError, Global};
use toml::value::Array;
use toml::{Table, Value};

/// The deepest conditions.
const MOST_DEEP: u8 = 8;

fn with_effect(alloc: Global, place: Place, admits: bool, value: &Value) -> Said<(bool, Item)>
    ensures { IfOk result (λ effect. effect ≡ told.with_effect place admits (view value.now)) }
{
    match cond_of(alloc, place, MOST_DEEP, value)? {
        Ok(cond) => Ok(Ok((admits, cond))),
        Err(r) => Ok(Err(r)),
    }
}

// What a rule does where its condition holds: it has one of `admit` and `deny`.
fn effect_of(
    alloc: Global,
    place: Place,
    admit: Option<&Value>,
    deny: Option<&Value>,
) -> Said<(bool, Item)>
    ensures { IfOk result (λ effect. effect
        ≡ told.effect_from place (option_map (λ v. view v.now) admit.entry) (option_map (λ v. view v.now) deny.entry)) }
{
    match (admit, deny) {
        (Some(value), None) => with_effect(alloc, place, true, value),
        (None, Some(value)) => with_effect(alloc, place, false, value),
        (None, None) => Ok(Err(refusal(place, Word::Effect, Why::Missing))),
        (Some(_), Some(_)) => Ok(Err(refusal(place, Word::Effect, Why::Both))),
    }
}

fn effect_at(alloc: Global, place: Place, table: &Table) -> Said<(bool, Item)>
    ensures { IfOk result (λ effect. effect ≡ told.effect_at place (table_view table.now)) }
{
    effect_of(
        alloc,
        place,
        under(table, Word::Admit),
        under(table, Word::Deny),
    )
}

fn effect_number(admits: bool) -> u64
    ensures { result ≡ effect_number admits }
{
    if admits { 1 } else { 0 }
}

fn with_id(alloc: Global, place: Place, id: u64, table: &Table) -> Said<Item>
    ensures { IfOk result (λ item. item ≡ told.with_id place (table_view table.now) id) }
{
    match effect_at(alloc, place, table)? {
        Ok((admits, cond)) => Ok(Ok(three(alloc, uint(id), uint(effect_number(admits)), cond)?)),
        Err(r) => Ok(Err(r)),
    }
}

fn rule_of(alloc: Global, place: Place, table: &Table) -> Said<Item>
    ensures { IfOk result (λ item. item ≡ told.rule_said place (table_view table.now)) }
{
    if !all_known(&[Word::Id, Word::Admit, Word::Deny], table) {
        return Ok(Err(refusal(place, Word::Keys, Why::Unknown)));
    }
    match number_at(place, Word::Id, table) {
        Ok(id) => with_id(alloc, place, id, table),
        Err(r) => Ok(Err(r)),
    }
}

fn rule_at(alloc: Global, index: usize, value: &Value) -> Said<Item>
    ensures { IfOk result (λ item. item ≡ told.rule_at index (view value.now)) }
{
    let place = placed(Word::Rule, index);
    match as_members(place, Word::Rule, value) {
        Ok(table) => rule_of(alloc, place, table),
        Err(r) => Ok(Err(r)),
    }
}

fn each_rule(alloc: Global, values: &Array) -> Said<Items<Item>>
    ensures { IfOk result (λ items. items ≡ each_onto told.rule_at [] (array_view values.now)) }
{
    let mut items = Items::new(alloc);
    'values: for value in values {
        match rule_at(alloc, items.len(), value)? {
            Ok(item) => items.push(item)?,
            Err(r) => return Ok(Err(r)),
        }
    }
    Ok(Ok(items))
}

fn each_holder(alloc: Global, list: Word, values: &Array) -> Said<Items<Item>>
    ensures { IfOk result (λ items. items ≡ each_onto (holder_at_place list) [] (array_view values.now)) }
{
    let mut items = Items::new(alloc);
    'values: for value in values {
        match holder_at(alloc, list, items.len(), value)? {
            Ok(item) => items.push(item)?,
            Err(r) => return Ok(Err(r)),
        }
    }
    Ok(Ok(items))
}

fn rules_of(alloc: Global, table: &Table) -> Said<Items<Item>>
    ensures { IfOk result (λ items. items ≡ told.list_said Word.Rule told.rule_at (table_view table.now)) }
{
    let Some(value) = under(table, Word::Rule) else {
        return Ok(Ok(Items::new(alloc)));
    };
    match as_items(form(), Word::Rule, value) {
        Ok(values) => each_rule(alloc, values),
        Err(r) => Ok(Err(r)),
    }
}

/// The holders under a key.
pub(crate) fn holders_of(alloc: Global, list: Word, table: &Table) -> Said<Items<Item>>
    ensures { IfOk result (λ items. items ≡ told.list_said list (holder_at_place list) (table_view table.now)) }
{
    let Some(value) = under(table, list) else {
        return Ok(Ok(Items::new(alloc)));
    };
    match as_items(form(), list, value) {
        Ok(values) => each_holder(alloc, list, values),
        Err(r) => Ok(Err(r)),
    }
}

fn document(
    alloc: Global,
    version: u64,
    governors: Items<Item>,
    issuers: Items<Item>,
    rules: Items<Item>,
) -> Result<Item, AllocError>
    ensures { IfOk result (λ item. item ≡ told.document version governors issuers rules) }
{
    let mut items = Items::new(alloc);
    items.push(uint(1))?;
    items.push(uint(version))?;
    items.push(array(governors))?;
    items.push(array(issuers))?;
    items.push(array(rules))?;
    Ok(array(items))
}

fn with_issuers(
    alloc: Global,
    version: u64,
    governors: Items<Item>,
    issuers: Items<Item>,
    table: &Table,
) -> Said<Item>
    ensures { IfOk result (λ item. item ≡ told.with_issuers (table_view table.now) version governors issuers) }
{
    match rules_of(alloc, table)? {
        Ok(rules) => Ok(Ok(document(alloc, version, governors, issuers, rules)?)),
        Err(r) => Ok(Err(r)),
    }
}

fn with_governors(alloc: Global, version: u64, governors: Items<Item>, table: &Table) -> Said<Item>
    ensures { IfOk result (λ item. item ≡ told.with_governors (table_view table.now) version governors) }
{
    match holders_of(alloc, Word::Issuer, table)? {
        Ok(issuers) => with_issuers(alloc, version, governors, issuers, table),
        Err(r) => Ok(Err(r)),
    }
}

fn with_version(alloc: Global, version: u64, table: &Table) -> Said<Item>
    ensures { IfOk result (λ item. item ≡ told.with_version (table_view table.now) version) }
{
    match holders_of(alloc, Word::Governor, table)? {
        Ok(governors) => with_governors(alloc, version, governors, table),
        Err(r) => Ok(Err(r)),
    }
}

/// The item of the policy that a form says, or the first reason why it isn't taken: keys that no policy has, then the version, the
/// governors, the issuers and the rules, each table in its order. `AllocError` is the want of memory alone.
pub fn policy_item(alloc: Global, table: &Table) -> Result<Result<Item, Refusal>, AllocError>
    ensures { IfOk result (λ item. item ≡ told.policy_item_said (table_view table.now)) }
{
    if !all_known(
        &[Word::Version, Word::Governor, Word::Issuer, Word::Rule],
        table,
    ) {
        return Ok(Err(refusal(form(), Word::Keys, Why::Unknown)));
    }
    match number_at(form(), Word::Version, table) {
        Ok(version) => with_version(alloc, version, table),
        Err(r) => Ok(Err(r)),
    }
}
