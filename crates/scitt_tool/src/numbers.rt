// Numbers as words.
ghost use Rattle.std.specs.Prelude.{◌≡◌, ◌≤◌, IfSome, true};
ghost use Rattle.std.specs.List.{list_all};
ghost use Rattle.std.specs.Char.{is_ascii_digit};
ghost use Rattle.std.specs.Str.Parse.{digits_value};
ghost use Rattle.scitt_tool.specs.Numbers.{is_number as is_plain_number, number_upto as number_named};

fn all_digits(text: &[u8]) -> bool
    ensures { result ≡ list_all is_ascii_digit text.now }
{
    text.iter().all(|b| b.is_ascii_digit())
}

fn is_number(text: &[u8]) -> bool
    ensures { result ≡ is_plain_number text.now }
{
    !text.is_empty() && text.len() <= 19 && all_digits(text) && (text.len() == 1 || text[0] != b'0')
}

fn number(text: &[u8]) -> u64
    requires { is_plain_number text.now ≡ true }
    ensures { result ≡ digits_value 10 text.now }
{
    let mut n = 0u64;
    for b in text {
        n = n * 10 + u64::from(*b - b'0');
    }
    n
}

/// The number that a word says: decimal digits without a sign or a leading zero, at most 19 of them. None where it says no such number, or
/// one above `most`.
pub(crate) fn number_upto(text: &str, most: u64) -> Option<u64>
    ensures value { result ≡ number_named most text.now }
    ensures within { IfSome result (λ n. n ≤ most) }
{
    let text = text.as_bytes();
    if !is_number(text) {
        return None;
    }
    let n = number(text);
    if n <= most { Some(n) } else { None }
}
