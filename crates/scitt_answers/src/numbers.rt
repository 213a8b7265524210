// Numbers in the paths of requests.

ghost use Rattle.std.specs.Prelude.{◌≡◌, ◌&&◌, ◌==◌, nat_lt, length, slice_index};
ghost use Rattle.scitt_answers.specs.Routes.{leads_with_zero, number_in};

use http_wire::decimal_of;

fn has_zero(text: &[u8]) -> bool
    ensures { result ≡ leads_with_zero text.now }
{
    text.len() > 1 && text[0] == b'0'
}

/// The number that a text says: `0`, or 1 to 10 digits without a leading zero, at most 4,294,967,295.
pub fn number_of(text: &[u8]) -> Option<u32>
    ensures { result ≡ number_in text.now }
{
    let n = decimal_of(text)?;
    if has_zero(text) {
        return None;
    }
    u32::try_from(n).ok()
}
