// A policy as a table of a form.

ghost use Rattle.std.specs.Prelude.{◌≡◌, IfOk, option_map, if◌then◌else◌};
ghost use Rattle.toml.specs.View.{array_view, table_view};
ghost use Rattle.shown_forms.specs.Policies.{SaysPolicy, SaysRule, SaysRules};

use crate::conditions::value_of;
use crate::holders::holders_of;
use crate::tables::put;
use policy_rules::{Policy, Rule};
use scitt_forms::Word;
use std::alloc::{AllocError, Global};
use toml::value::Array;
use toml::{Table, Value};

/// The deepest conditions.
const MOST_DEEP: u8 = 8;

fn effect(admit: bool) -> Word
    ensures { result ≡ (if admit then Word.Admit else Word.Deny) }
{
    if admit { Word::Admit } else { Word::Deny }
}

fn table_of(alloc: Global, rule: &Rule) -> Result<Option<Table>, AllocError>
    ensures { IfOk result (λ table. SaysRule rule.now (option_map table_view table)) }
{
    let Some(cond) = value_of(alloc, MOST_DEEP, &rule.cond)? else {
        return Ok(None);
    };
    let mut table = Table::new(alloc);
    put(alloc, &mut table, effect(rule.admit), cond)?;
    put(
        alloc,
        &mut table,
        Word::Id,
        Value::Integer(i64::from(rule.id)),
    )?;
    Ok(Some(table))
}

fn rules_of(alloc: Global, rules: &[Rule]) -> Result<Option<Array>, AllocError>
    ensures { IfOk result (λ tables. SaysRules rules.now (option_map array_view tables)) }
{
    let mut tables = Vec::new(alloc);
    for rule in rules {
        match table_of(alloc, rule)? {
            Some(table) => tables.push(Value::Table(table))?,
            None => return Ok(None),
        }
    }
    Ok(Some(tables))
}

/// The form of a policy, or that it has none.
pub(crate) fn form_of(alloc: Global, policy: &Policy) -> Result<Option<Table>, AllocError>
    ensures { IfOk result (λ table. SaysPolicy policy.now (option_map table_view table)) }
{
    let Some(rules) = rules_of(alloc, policy.rules.as_slice())? else {
        return Ok(None);
    };
    let governors = holders_of(alloc, policy.governors.as_slice())?;
    let issuers = holders_of(alloc, policy.issuers.as_slice())?;
    let version = Value::Integer(i64::from(policy.version));
    let mut table = Table::new(alloc);
    put(alloc, &mut table, Word::Governor, Value::Array(governors))?;
    put(alloc, &mut table, Word::Issuer, Value::Array(issuers))?;
    put(alloc, &mut table, Word::Rule, Value::Array(rules))?;
    put(alloc, &mut table, Word::Version, version)?;
    Ok(Some(table))
}
