// Numbers in decimal digits.

ghost use Rattle.std.specs.Prelude.{◌≡◌, true};
ghost use Rattle.std.specs.Str.Parse.{digits_value};
ghost use Rattle.std.specs.List.{list_all};
ghost use Rattle.std.specs.Char.{is_ascii_digit};
ghost use Rattle.http_wire.specs.Heads.{are_digits as are_few_digits, decimal_in};

fn all_digits(text: &[u8]) -> bool
    ensures { result ≡ list_all is_ascii_digit text.now }
{
    text.iter().all(|b| b.is_ascii_digit())
}

fn are_digits(text: &[u8]) -> bool
    ensures { result ≡ are_few_digits text.now }
{
    !text.is_empty() && text.len() <= 10 && all_digits(text)
}

fn number(text: &[u8]) -> u64
    requires { are_few_digits text.now ≡ true }
    ensures { result ≡ digits_value 10 text.now }
{
    let mut n = 0u64;
    for b in text {
        n = n * 10 + u64::from(*b - b'0');
    }
    n
}

/// The number that 1 to 10 decimal digits say, with zeros in front of it or not. `None` of another text.
pub fn decimal_of(text: &[u8]) -> Option<u64>
    ensures { result ≡ decimal_in text.now }
{
    if are_digits(text) {
        return Some(number(text));
    }
    None
}
