// Conditions as values of a form.

ghost use Rattle.std.specs.Prelude.{◌≡◌, IfOk, suc, option_map};
ghost use Rattle.toml.specs.Data.{string};
ghost use Rattle.toml.specs.View.{view, array_view};
ghost use Rattle.shown_forms.specs.Conditions.{SaysCond, SaysParts};
ghost use Rattle.shown_forms.specs.Tables.{one_key};

use crate::tables::{number, one};
use cbor_core::Text;
use policy_rules::{Cond, CondNode};
use scitt_forms::Word;
use std::alloc::{AllocError, Global};
use toml::Value;
use toml::value::Array;

fn text_value(alloc: Global, word: Word, text: &Text) -> Result<Value, AllocError>
    ensures { IfOk result (λ value. view value ≡ one_key word (string text.now)) }
{
    one(alloc, word, Value::string(alloc, text.as_str())?)
}

#[cycle(showing)]
fn values_of(alloc: Global, deep: u8, parts: &[Cond]) -> Result<Option<Array>, AllocError>
    ensures { IfOk result (λ values. SaysParts deep parts.now (option_map array_view values)) }
{
    let mut values = Vec::new(alloc);
    for part in parts {
        match value_of(alloc, deep, part)? {
            Some(value) => values.push(value)?,
            None => return Ok(None),
        }
    }
    Ok(Some(values))
}

// The value of a condition, each part being at most so many deep.
#[cycle(showing)]
fn value_below(alloc: Global, deep: u8, cond: &Cond) -> Result<Option<Value>, AllocError>
    ensures { IfOk result (λ value. SaysCond (suc deep) cond.now (option_map view value)) }
{
    match &cond.node {
        CondNode::All(parts) => match values_of(alloc, deep, parts.as_slice())? {
            Some(values) => Ok(Some(one(alloc, Word::All, Value::Array(values))?)),
            None => Ok(None),
        },
        CondNode::Any(parts) => match values_of(alloc, deep, parts.as_slice())? {
            Some(values) => Ok(Some(one(alloc, Word::Any, Value::Array(values))?)),
            None => Ok(None),
        },
        CondNode::Not(part) => match value_of(alloc, deep, part.get())? {
            Some(value) => Ok(Some(one(alloc, Word::Not, value)?)),
            None => Ok(None),
        },
        CondNode::Issuer(text) => Ok(Some(text_value(alloc, Word::Issuer, text)?)),
        CondNode::SubjectPrefix(text) => Ok(Some(text_value(alloc, Word::SubjectPrefix, text)?)),
        CondNode::ContentType(text) => Ok(Some(text_value(alloc, Word::ContentType, text)?)),
        CondNode::PayloadAtMost(n) => match number(*n) {
            Some(value) => Ok(Some(one(alloc, Word::PayloadAtMost, value)?)),
            None => Ok(None),
        },
        CondNode::FirstOfSubject => Ok(Some(one(
            alloc,
            Word::FirstOfSubject,
            Value::Boolean(true),
        )?)),
        CondNode::CountBelow(n) => match number(*n) {
            Some(value) => Ok(Some(one(alloc, Word::CountBelow, value)?)),
            None => Ok(None),
        },
        CondNode::Prior(text) => Ok(Some(text_value(alloc, Word::Prior, text)?)),
    }
}

/// The value of a condition of at most so many deep, or that it has none: it is deeper, or a number of it isn't TOML's.
#[cycle(showing)]
pub(crate) fn value_of(alloc: Global, deep: u8, cond: &Cond) -> Result<Option<Value>, AllocError>
    ensures { IfOk result (λ value. SaysCond deep cond.now (option_map view value)) }
{
    if deep == 0 {
        return Ok(None);
    }
    value_below(alloc, deep - 1, cond)
}
