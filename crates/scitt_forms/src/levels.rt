// The levels of a key as an item.

ghost use Rattle.std.specs.Prelude.{◌≡◌, IfOk};
ghost use Rattle.toml.specs.View.{table_view};
ghost use Rattle.scitt_forms.specs.Levels as told;

use crate::fields::{refusal, text_at};
use crate::items::{array, two, uint};
use crate::refusal::{Place, Refusal, Why, Word};
use cbor_core::Item;
use hss_keys::{Level, Levels};
use level_names::levels_named;
use sqlite_items::Items;
use std::alloc::{AllocError, Global};
use toml::Table;

fn level_item(alloc: Global, level: Level) -> Result<Item, AllocError>
    ensures { IfOk result (λ item. item ≡ told.level_item level) }
{
    let lms = level.lms.parameters().code;
    let ots = level.ots.parameters().code;
    two(alloc, uint(u64::from(lms)), uint(u64::from(ots)))
}

/// The item of levels.
pub(crate) fn levels_item(alloc: Global, levels: &[Level]) -> Result<Item, AllocError>
    ensures { IfOk result (λ item. item ≡ told.levels_item levels.now) }
{
    let mut items = Items::new(alloc);
    for level in levels {
        items.push(level_item(alloc, *level)?)?;
    }
    Ok(array(items))
}

fn named(place: Place, text: &str) -> Result<Levels, Refusal>
    ensures { result ≡ told.named place text.now }
{
    match levels_named(text) {
        Some(levels) => Ok(levels),
        None => Err(refusal(place, Word::Levels, Why::Named)),
    }
}

/// The levels that a table says.
pub(crate) fn levels_at(place: Place, table: &Table) -> Result<Levels, Refusal>
    ensures { result ≡ told.levels_said place (table_view table.now) }
{
    match text_at(place, Word::Levels, table) {
        Ok(text) => named(place, text),
        Err(r) => Err(r),
    }
}
