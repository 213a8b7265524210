// Conditions of rules: a table of one key, which says what is to hold.

ghost use Rattle.std.specs.Prelude.{◌≡◌, ◌∷◌, [], Ok, Err, IfOk, option_map};
ghost use Rattle.policy_rules.specs.Spelling.{coded as coded_item, text_item, uint_item};
ghost use Rattle.toml.specs.View.{view, array_view, table_view};
ghost use Rattle.scitt_forms.specs.Fields.{each_onto};
ghost use Rattle.scitt_forms.specs.Conditions as told;

use crate::fields::{Said, as_items, as_members, as_number, as_text, refusal};
use crate::items::{bare, coded, coded_all, text, uint};
use crate::refusal::{Place, Refusal, Why, Word};
use cbor_core::Item;
use sqlite_items::Items;
use std::alloc::{AllocError, Global};
use toml::value::Array;
use toml::{Table, Value};

// The only key of a table, with its value.
fn only_member(table: &Table) -> Option<(&str, &Value)>
    ensures { option_map (λ m. (m.0.now, view m.1.now)) result ≡ told.only_member (table_view table.now) }
{
    if table.len() != 1 {
        return None;
    }
    match table.first_key_value() {
        Some((key, value)) => Some((key.as_str(), value)),
        None => None,
    }
}

fn text_cond(alloc: Global, place: Place, word: Word, code: u64, value: &Value) -> Said<Item>
    ensures { IfOk result (λ item. item ≡ told.text_cond place word (λ s. coded_item code (text_item s ∷ [])) (view value.now)) }
{
    match as_text(place, word, value) {
        Ok(said) => Ok(Ok(coded(alloc, code, text(alloc, said)?)?)),
        Err(r) => Ok(Err(r)),
    }
}

fn number_cond(alloc: Global, place: Place, word: Word, code: u64, value: &Value) -> Said<Item>
    ensures { IfOk result (λ item. item ≡ told.number_cond place word (λ n. coded_item code (uint_item n ∷ [])) (view value.now)) }
{
    match as_number(place, word, value) {
        Ok(n) => Ok(Ok(coded(alloc, code, uint(n))?)),
        Err(r) => Ok(Err(r)),
    }
}

// Only `true` says a condition without an operand.
fn true_cond(alloc: Global, place: Place, word: Word, value: &Value) -> Said<Item>
    ensures { IfOk result (λ item. item ≡ told.true_cond place word (view value.now)) }
{
    match value.as_bool() {
        Some(true) => Ok(Ok(bare(alloc, 7)?)),
        Some(false) => Ok(Err(refusal(place, word, Why::Kind))),
        None => Ok(Err(refusal(place, word, Why::Kind))),
    }
}

#[cycle(saying)]
fn conds_of(alloc: Global, place: Place, depth: u8, values: &Array) -> Said<Items<Item>>
    ensures { IfOk result (λ items. items ≡ each_onto (λ i. told.cond_said place depth) [] (array_view values.now)) }
{
    let mut items = Items::new(alloc);
    'values: for value in values {
        match cond_of(alloc, place, depth, value)? {
            Ok(item) => items.push(item)?,
            Err(r) => return Ok(Err(r)),
        }
    }
    Ok(Ok(items))
}

#[cycle(saying)]
fn parts_of(alloc: Global, place: Place, depth: u8, word: Word, value: &Value) -> Said<Items<Item>>
    ensures { IfOk result (λ items. items ≡ told.parts_said place word (told.cond_said place depth) (view value.now)) }
{
    match as_items(place, word, value) {
        Ok(values) => conds_of(alloc, place, depth, values),
        Err(r) => Ok(Err(r)),
    }
}

#[cycle(saying)]
fn joined(
    alloc: Global,
    place: Place,
    depth: u8,
    word: Word,
    code: u64,
    value: &Value,
) -> Said<Item>
    ensures { IfOk result (λ item. item ≡ told.parts_cond place word (λ parts. coded_item code parts) (told.cond_said place depth) (view value.now)) }
{
    match parts_of(alloc, place, depth, word, value)? {
        Ok(parts) => Ok(Ok(coded_all(alloc, code, parts)?)),
        Err(r) => Ok(Err(r)),
    }
}

#[cycle(saying)]
fn not_of(alloc: Global, place: Place, depth: u8, value: &Value) -> Said<Item>
    ensures { IfOk result (λ item. item ≡ told.not_cond (told.cond_said place depth) (view value.now)) }
{
    match cond_of(alloc, place, depth, value)? {
        Ok(part) => Ok(Ok(coded(alloc, 2, part)?)),
        Err(r) => Ok(Err(r)),
    }
}

// The condition of each key.
#[cycle(saying)]
fn cond_by(alloc: Global, place: Place, depth: u8, key: &str, value: &Value) -> Said<Item>
    ensures { IfOk result (λ item. item ≡ told.cond_by place (told.cond_said place depth) key.now (view value.now)) }
{
    match key {
        "all" => joined(alloc, place, depth, Word::All, 0, value),
        "any" => joined(alloc, place, depth, Word::Any, 1, value),
        "not" => not_of(alloc, place, depth, value),
        "issuer" => text_cond(alloc, place, Word::Issuer, 3, value),
        "subject_prefix" => text_cond(alloc, place, Word::SubjectPrefix, 4, value),
        "content_type" => text_cond(alloc, place, Word::ContentType, 5, value),
        "payload_at_most" => number_cond(alloc, place, Word::PayloadAtMost, 6, value),
        "first_of_subject" => true_cond(alloc, place, Word::FirstOfSubject, value),
        "issuer_count_below" => number_cond(alloc, place, Word::CountBelow, 8, value),
        "prior_issuer" => text_cond(alloc, place, Word::Prior, 9, value),
        _ => Ok(Err(refusal(place, Word::Condition, Why::Unknown))),
    }
}

#[cycle(saying)]
fn cond_of_table(alloc: Global, place: Place, depth: u8, table: &Table) -> Said<Item>
    ensures { IfOk result (λ item. item ≡ told.cond_of_table place (told.cond_said place depth) (table_view table.now)) }
{
    match only_member(table) {
        Some((key, value)) => cond_by(alloc, place, depth, key, value),
        None => Ok(Err(refusal(place, Word::Condition, Why::Kind))),
    }
}

#[cycle(saying)]
fn cond_below(alloc: Global, place: Place, depth: u8, value: &Value) -> Said<Item>
    ensures { IfOk result (λ item. item ≡ told.cond_of place (told.cond_said place depth) (view value.now)) }
{
    match as_members(place, Word::Condition, value) {
        Ok(table) => cond_of_table(alloc, place, depth, table),
        Err(r) => Ok(Err(r)),
    }
}

/// The condition that a value says, at most so many deep.
#[cycle(saying)]
pub(crate) fn cond_of(alloc: Global, place: Place, depth: u8, value: &Value) -> Said<Item>
    ensures { IfOk result (λ item. item ≡ told.cond_said place depth (view value.now)) }
{
    if depth == 0 {
        return Ok(Err(refusal(place, Word::Condition, Why::Deep)));
    }
    cond_below(alloc, place, depth - 1, value)
}
