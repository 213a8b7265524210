// Laws of whole histories.

ghost use Rattle.registrar.specs.Histories.{LogsAreWellMade, LogsOnlyGrow, AdmittedStays, NoIndexTwice};

use cbor_core::{strict_item_is_exact, strict_text_is_exact};
use log_replay::{growth_laws, log_laws, record_laws};

/// A law: over every list of turns and stops from a loaded log, each log is well made, and logs only grow. What was answered Admitted
/// stands at its index in every later log, and no index stands in two different Batches of these logs and pending records.
pub fn turn_laws()
    ensures sound { LogsAreWellMade }
    ensures growth { LogsOnlyGrow }
    ensures admitted { AdmittedStays }
    ensures index { NoIndexTwice }
{
    record_laws();
    growth_laws();
    log_laws();
    strict_item_is_exact();
    strict_text_is_exact();
}
