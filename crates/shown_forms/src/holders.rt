// Holders as tables of a form.

ghost use Rattle.std.specs.Prelude.{◌≡◌, IfOk, map};
ghost use Rattle.toml.specs.View.{array_view, table_view};
ghost use Rattle.shown_forms.specs.Policies.{HolderTable, HolderTables};
ghost use Rattle.shown_forms.specs.Trusts.{holder_of};

use crate::tables::{digits, key_digits, put};
use cbor_core::{Bytes, Text};
use policy_rules::{Holder, Key60};
use relying_party::Issuer;
use scitt_forms::Word;
use std::alloc::{AllocError, Global};
use toml::value::Array;
use toml::{Table, Value};

fn table_of(alloc: Global, iss: &Text, kid: &Bytes, key: &Key60) -> Result<Table, AllocError>
    ensures { IfOk result (λ table. HolderTable (record { iss = iss.now; kid = kid.now; key = key.now }) (table_view table)) }
{
    let iss = Value::string(alloc, iss.as_str())?;
    let key = key_digits(alloc, key)?;
    let kid = digits(alloc, kid.as_slice())?;
    let mut table = Table::new(alloc);
    put(alloc, &mut table, Word::Iss, iss)?;
    put(alloc, &mut table, Word::Key, key)?;
    put(alloc, &mut table, Word::Kid, kid)?;
    Ok(table)
}

/// The tables of holders.
pub(crate) fn holders_of(alloc: Global, holders: &[Holder]) -> Result<Array, AllocError>
    ensures { IfOk result (λ tables. HolderTables holders.now (array_view tables)) }
{
    let mut tables = Vec::new(alloc);
    for holder in holders {
        let table = table_of(alloc, &holder.iss, &holder.kid, &holder.key)?;
        tables.push(Value::Table(table))?;
    }
    Ok(tables)
}

/// The tables of trusted issuers.
pub(crate) fn issuers_of(alloc: Global, issuers: &[Issuer]) -> Result<Array, AllocError>
    ensures { IfOk result (λ tables. HolderTables (map holder_of issuers.now) (array_view tables)) }
{
    let mut tables = Vec::new(alloc);
    for issuer in issuers {
        let table = table_of(alloc, &issuer.iss, &issuer.kid, &issuer.key)?;
        tables.push(Value::Table(table))?;
    }
    Ok(tables)
}
