// Tables and values of a form.

ghost use Rattle.std.specs.Prelude.{◌≡◌, Ok, Some, None, OnOk, IfOk, option_map, true, pos, nat_le, if◌then◌else◌};
ghost use Rattle.hex.specs.Hex.{decode_of, decode_sized, encode_lower};
ghost use Rattle.toml.specs.Data.{integer, string};
ghost use Rattle.toml.specs.View.{view, table_view};
ghost use Rattle.scitt_forms.specs.Fields.{name_of};
ghost use Rattle.shown_forms.specs.Tables.{comes_last, most_number, one_key, put_last};

use policy_rules::Key60;
use scitt_forms::Word;
use std::alloc::{AllocError, Global};
use toml::{Table, Value};

/// Puts a key behind those of a table.
pub(crate) fn put(
    alloc: Global,
    table: &mut Table,
    word: Word,
    value: Value,
) -> Result<(), AllocError>
    requires { comes_last (name_of word) (table_view table.old) ≡ true }
    ensures { OnOk result (table_view table.new ≡ put_last (table_view table.old) (name_of word) (view value)) }
{
    let key = String::from_str(alloc, word.name())?;
    match table.insert(key, value) {
        Ok(_old) => Ok(()),
        Err(_) => Err(AllocError),
    }
}

/// A table of one key.
pub(crate) fn one(alloc: Global, word: Word, value: Value) -> Result<Value, AllocError>
    ensures { IfOk result (λ table. view table ≡ one_key word (view value)) }
{
    let mut table = Table::new(alloc);
    put(alloc, &mut table, word, value)?;
    Ok(Value::Table(table))
}

/// A number, where TOML has it.
pub(crate) fn number(n: u64) -> Option<Value>
    ensures { option_map view result ≡ (if nat_le n most_number then Some (integer (pos n)) else None) }
{
    if n > 9_223_372_036_854_775_807 {
        return None;
    }
    Some(Value::Integer(n as i64))
}

/// Bytes as digits.
pub(crate) fn digits(alloc: Global, bytes: &[u8]) -> Result<Value, AllocError>
    ensures is { IfOk result (λ value. view value ≡ string (encode_lower bytes.now)) }
    ensures reads { decode_of (encode_lower bytes.now) ≡ Ok bytes.now }
{
    let text = hex::encode(alloc, bytes)?;
    Ok(Value::String(text))
}

/// A key as digits.
pub(crate) fn key_digits(alloc: Global, key: &Key60) -> Result<Value, AllocError>
    ensures is { IfOk result (λ value. view value ≡ string (encode_lower key.now)) }
    ensures reads { decode_sized (encode_lower key.now) 60 ≡ Ok key.now }
{
    let text = hex::encode(alloc, key.as_slice())?;
    Ok(Value::String(text))
}
