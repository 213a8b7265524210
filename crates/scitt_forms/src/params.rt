// Parameters of a log as forms say them.

ghost use Rattle.std.specs.Prelude.{◌≡◌, IfOk};
ghost use Rattle.toml.specs.View.{table_view};
ghost use Rattle.scitt_forms.specs.Params as told;

use crate::fields::{Said, all_known, form, number_at, refusal, text_at, value};
use crate::holders::holder_at;
use crate::items::{array, text, uint};
use crate::levels::{levels_at, levels_item};
use crate::refusal::{Refusal, Why, Word};
use cbor_core::Item;
use hss_keys::Levels;
use sqlite_items::Items;
use std::alloc::{AllocError, Global};
use toml::Table;

fn governor_of(alloc: Global, table: &Table) -> Said<Item>
    ensures { IfOk result (λ item. item ≡ told.governor_said (table_view table.now)) }
{
    match value(form(), Word::Governor, table) {
        Ok(value) => holder_at(alloc, Word::Governor, 0, value),
        Err(r) => Ok(Err(r)),
    }
}

fn params(
    alloc: Global,
    name: &str,
    governor: Item,
    levels: &Levels,
    max_entries: u64,
    block: u64,
) -> Result<Item, AllocError>
    ensures { IfOk result (λ item. item ≡ told.params name.now governor levels.now max_entries block) }
{
    let mut items = Items::new(alloc);
    items.push(uint(1))?;
    items.push(text(alloc, name)?)?;
    items.push(governor)?;
    items.push(levels_item(alloc, levels.as_slice())?)?;
    items.push(uint(max_entries))?;
    items.push(uint(block))?;
    Ok(array(items))
}

fn with_entries(
    alloc: Global,
    name: &str,
    governor: Item,
    levels: &Levels,
    max_entries: u64,
    table: &Table,
) -> Said<Item>
    ensures { IfOk result (λ item. item ≡ told.with_entries (table_view table.now) name.now governor levels.now max_entries) }
{
    match number_at(form(), Word::Block, table) {
        Ok(block) => Ok(Ok(params(alloc, name, governor, levels, max_entries, block)?)),
        Err(r) => Ok(Err(r)),
    }
}

fn with_levels(
    alloc: Global,
    name: &str,
    governor: Item,
    levels: &Levels,
    table: &Table,
) -> Said<Item>
    ensures { IfOk result (λ item. item ≡ told.with_levels (table_view table.now) name.now governor levels.now) }
{
    match number_at(form(), Word::MaxEntries, table) {
        Ok(max_entries) => with_entries(alloc, name, governor, levels, max_entries, table),
        Err(r) => Ok(Err(r)),
    }
}

fn with_governor(alloc: Global, name: &str, governor: Item, table: &Table) -> Said<Item>
    ensures { IfOk result (λ item. item ≡ told.with_governor (table_view table.now) name.now governor) }
{
    match levels_at(form(), table) {
        Ok(levels) => with_levels(alloc, name, governor, &levels, table),
        Err(r) => Ok(Err(r)),
    }
}

fn with_name(alloc: Global, name: &str, table: &Table) -> Said<Item>
    ensures { IfOk result (λ item. item ≡ told.with_name (table_view table.now) name.now) }
{
    match governor_of(alloc, table)? {
        Ok(governor) => with_governor(alloc, name, governor, table),
        Err(r) => Ok(Err(r)),
    }
}

/// The item of the parameters that a form says, or the first reason why it isn't taken: keys that no parameters have, then the name, the
/// governor, the levels, the most entries and the block. `AllocError` is the want of memory alone.
pub fn params_item(alloc: Global, table: &Table) -> Result<Result<Item, Refusal>, AllocError>
    ensures { IfOk result (λ item. item ≡ told.params_item_said (table_view table.now)) }
{
    if !all_known(
        &[
            Word::Name,
            Word::Governor,
            Word::Levels,
            Word::MaxEntries,
            Word::Block,
        ],
        table,
    ) {
        return Ok(Err(refusal(form(), Word::Keys, Why::Unknown)));
    }
    match text_at(form(), Word::Name, table) {
        Ok(name) => with_name(alloc, name, table),
        Err(r) => Ok(Err(r)),
    }
}
