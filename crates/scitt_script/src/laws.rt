// The law of scripts.

ghost use Rattle.scitt_script.specs.Scripts.{OneScript};

use cbor_core::whole_bytes_have_one_answer;

/// A law: all bytes are one script, or none.
pub fn bytes_are_one_script()
    ensures { OneScript }
{
    whole_bytes_have_one_answer();
}
