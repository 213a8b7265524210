// The law of parameter files.

ghost use Rattle.log_params.specs.OneAnswer.{SomeAnswer, OneAnswer};

use cbor_core::whole_bytes_have_one_answer;

/// A law: all bytes are one parameter file, or have one thing that is wrong, and never both. So `decode` refuses exactly where
/// something is wrong, unless memory is wanting.
pub fn params_have_one_answer()
    ensures some { SomeAnswer }
    ensures one { OneAnswer }
{
    whole_bytes_have_one_answer();
}
