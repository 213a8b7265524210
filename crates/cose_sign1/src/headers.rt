ghost use Rattle.std.specs.Prelude.{◌≡◌};
ghost use Rattle.cbor_core.specs.Order.{Ordered};
ghost use Rattle.cose_sign1.specs.Headers.{Says, bad_header as header_stop, dup_label as label_stop, protected_fault, unprotected_fault, first_fault, header_fault};

use crate::crit::check_crit;
use crate::kinds::is_right_kind;
use crate::labels::{is_number, label_of};
use crate::stops::Sign1Stop;
use cbor_core::{Item, has_ordered_key, key_order};
use std::alloc::Global;

fn bad_header(alloc: Global, key: &Item) -> Result<(), Sign1Stop>
    ensures { Says result (header_stop key.now) }
{
    match label_of(alloc, key) {
        Ok(Some(label)) => Err(Sign1Stop::BadHeader(label)),
        Ok(None) => Ok(()),
        Err(_) => Err(Sign1Stop::OutOfMemory),
    }
}

fn dup_label(alloc: Global, key: &Item) -> Result<(), Sign1Stop>
    ensures { Says result (label_stop key.now) }
{
    match label_of(alloc, key) {
        Ok(Some(label)) => Err(Sign1Stop::DupLabel(label)),
        Ok(None) => Ok(()),
        Err(_) => Err(Sign1Stop::OutOfMemory),
    }
}

fn check_protected_entry(alloc: Global, entry: &(Item, Item)) -> Result<(), Sign1Stop>
    ensures { Says result (protected_fault entry.now) }
{
    if !is_right_kind(entry) || is_number(394, &entry.0) {
        return bad_header(alloc, &entry.0);
    }
    Ok(())
}

fn check_unprotected_entry(
    alloc: Global,
    protected: &[(Item, Item)],
    order: &[u16],
    entry: &(Item, Item),
) -> Result<(), Sign1Stop>
    requires { Ordered 0 protected.now order.now }
    ensures { Says result (unprotected_fault protected.now entry.now) }
{
    if has_ordered_key(protected, order, &entry.0) {
        dup_label(alloc, &entry.0)?;
    }
    if !is_right_kind(entry) {
        return bad_header(alloc, &entry.0);
    }
    Ok(())
}

fn check_protected(alloc: Global, entries: &[(Item, Item)]) -> Result<(), Sign1Stop>
    ensures { Says result (first_fault protected_fault entries.now) }
{
    for entry in entries {
        check_protected_entry(alloc, entry)?;
    }
    Ok(())
}

fn check_unprotected(
    alloc: Global,
    protected: &[(Item, Item)],
    order: &[u16],
    entries: &[(Item, Item)],
) -> Result<(), Sign1Stop>
    requires { Ordered 0 protected.now order.now }
    ensures { Says result (first_fault (unprotected_fault protected.now) entries.now) }
{
    for entry in entries {
        check_unprotected_entry(alloc, protected, order, entry)?;
    }
    Ok(())
}

fn check_both(
    alloc: Global,
    protected: &[(Item, Item)],
    entries: &[(Item, Item)],
) -> Result<(), Sign1Stop>
    ensures { Says result (first_fault (unprotected_fault protected.now) entries.now) }
{
    if entries.is_empty() {
        return Ok(());
    }
    match key_order(alloc, protected) {
        Ok(order) => check_unprotected(alloc, protected, order.as_slice(), entries),
        Err(_) => Err(Sign1Stop::OutOfMemory),
    }
}

/// The first fault of the headers: protected entries, then unprotected ones, then crit.
#[tactic(auto, unfolding(crate::specs::Headers::header_fault))]
pub fn check_headers(
    alloc: Global,
    protected: &[(Item, Item)],
    unprotected: &[(Item, Item)],
) -> Result<(), Sign1Stop>
    ensures { Says result (header_fault protected.now unprotected.now) }
{
    check_protected(alloc, protected)?;
    check_both(alloc, protected, unprotected)?;
    check_crit(protected, unprotected)
}
