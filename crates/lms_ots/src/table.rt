// Types by their codes.

ghost use Rattle.std.specs.Prelude.{◌≡◌, ◌≢◌, ℕ, IfSome, IfNone};
ghost use Rattle.lms_ots.specs.Parameters.{parameters, type_of_code};
ghost use Rattle.lms_ots.specs.declared.parameters.OtsType.{OtsType};

use crate::parameters::OtsType;

/// The type with the code `code`; `None` exactly for a code that the table doesn't have
/// (RFC 8554, 4.1).
pub fn ots_type(code: u32) -> Option<OtsType>
    ensures value { result ≡ type_of_code code }
    ensures known { IfSome result (λ kind. (parameters kind).code ≡ code) }
    ensures unknown { IfNone result ((kind : OtsType) → (parameters kind).code ≢ code) }
{
    match code {
        1 => Some(OtsType::W1),
        2 => Some(OtsType::W2),
        3 => Some(OtsType::W4),
        4 => Some(OtsType::W8),
        _ => None,
    }
}

/// The bytes of a signature of this type.
pub fn ots_sig_len(kind: OtsType) -> usize
    ensures { result ≡ (parameters kind).sig_len }
{
    kind.parameters().sig_len
}
