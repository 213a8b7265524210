// Texts as tables, and items as bytes.

ghost use Rattle.std.specs.Prelude.{◌≡◌, IfOk, MatchResult, Ok, Err};
ghost use Rattle.toml.specs.View.{table_view};
ghost use Rattle.scitt_forms.specs.Refusals.{Said as Tells};
ghost use Rattle.scitt_forms.specs.Writing.{table_said, Encodes};

use crate::fields::{form, refusal};
use crate::refusal::{Refusal, Why, Word};
use crate::stop::FormStop;
use cbor_core::{Bytes, EncodeStop, Item, encode};
use std::alloc::{AllocError, Global};
use toml::Table;

/// The table that a text is (TOML 1.0), or that it is none. `AllocError` is the want of memory alone.
pub fn table_of(alloc: Global, text: &str) -> Result<Result<Table, Refusal>, AllocError>
    ensures { IfOk result (λ said. MatchResult said (λ t. table_said text.now ≡ Ok (table_view t)) (λ r. table_said text.now ≡ Err r)) }
{
    match toml::table_from_str(alloc, text) {
        Ok(table) => Ok(Ok(table)),
        Err(e) => {
            if e.is_memory() {
                return Err(AllocError);
            }
            Ok(Err(refusal(form(), Word::Form, Why::Toml)))
        }
    }
}

/// The strict bytes of an item. `TooLong` comes only where it has none, and `OutOfMemory` is the want of memory alone.
pub fn bytes_of_item(alloc: Global, item: &Item) -> Result<Bytes, FormStop>
    ensures { Encodes item.now result }
{
    match encode(alloc, item) {
        Ok(bytes) => Ok(bytes),
        Err(EncodeStop::NotStrict) => Err(FormStop::TooLong),
        Err(EncodeStop::OutOfMemory) => Err(FormStop::OutOfMemory),
    }
}
