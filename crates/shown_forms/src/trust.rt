// A trust file as a table of a form.

ghost use Rattle.std.specs.Prelude.{◌≡◌, IfOk};
ghost use Rattle.toml.specs.View.{array_view, table_view};
ghost use Rattle.shown_forms.specs.Trusts.{ServiceTable, ServiceTables, TrustTable};

use crate::holders::issuers_of;
use crate::tables::{key_digits, put};
use relying_party::{Service, Trust};
use scitt_forms::Word;
use std::alloc::{AllocError, Global};
use toml::value::Array;
use toml::{Table, Value};

fn table_of(alloc: Global, service: &Service) -> Result<Table, AllocError>
    ensures { IfOk result (λ table. ServiceTable service.now (table_view table)) }
{
    let name = Value::string(alloc, service.name().as_str())?;
    let key = key_digits(alloc, service.key())?;
    let mut table = Table::new(alloc);
    put(alloc, &mut table, Word::Key, key)?;
    put(alloc, &mut table, Word::Name, name)?;
    Ok(table)
}

fn services_of(alloc: Global, services: &[Service]) -> Result<Array, AllocError>
    ensures { IfOk result (λ tables. ServiceTables services.now (array_view tables)) }
{
    let mut tables = Vec::new(alloc);
    for service in services {
        tables.push(Value::Table(table_of(alloc, service)?))?;
    }
    Ok(tables)
}

/// The form of a trust file.
pub(crate) fn form_of(alloc: Global, trust: &Trust) -> Result<Table, AllocError>
    ensures { IfOk result (λ table. TrustTable trust.now (table_view table)) }
{
    let services = services_of(alloc, trust.services.as_slice())?;
    let issuers = issuers_of(alloc, trust.issuers.as_slice())?;
    let mut table = Table::new(alloc);
    put(alloc, &mut table, Word::Issuer, Value::Array(issuers))?;
    put(alloc, &mut table, Word::Service, Value::Array(services))?;
    Ok(table)
}
