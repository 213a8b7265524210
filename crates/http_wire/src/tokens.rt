// Parts of a field's value: white space round them, commas between them, and what they name.
ghost use Rattle.std.specs.Prelude.{◌≡◌, ℕ, reverse, ◌≤◌, length, drop, codes};
ghost use Rattle.std.specs.List.{list_any};
ghost use Rattle.std.specs.Str.{str_eq_ignore_ascii_case};
ghost use Rattle.httparse.specs.Grammar.{skip_ows, trim_ows};
ghost use Rattle.http_wire.specs.Tokens.{before, is_token, type_is, parts_of, closes};

/// Whether two names are equal without regard to ASCII case.
pub(crate) fn same_name(a: &[u8], b: &[u8]) -> bool
    ensures { result ≡ str_eq_ignore_ascii_case a.now b.now }
{
    a.eq_ignore_ascii_case(b)
}

/// Whether a content type is this one: the value up to its first semicolon, trimmed of spaces and tabs.
pub(crate) fn is_type(value: &[u8], name: &[u8]) -> bool
    ensures { result ≡ type_is name.now value.now }
{
    is_word(first_part(value, b';'), name)
}

/// Whether a part of a Connection field's value is `close`.
pub(crate) fn asks_to_close(value: &[u8]) -> bool
    ensures { result ≡ closes value.now }
{
    let mut rest = value;
    loop {
        let part = first_part(rest, b',');
        if is_word(part, b"close") {
            return true;
        }
        if part.len() == rest.len() {
            return false;
        }
        rest = behind(rest, part.len() + 1);
    }
}

fn behind(text: &[u8], count: usize) -> &[u8]
    requires { count ≤ length text.now }
    ensures { result.now ≡ drop count text.now }
{
    &text[count..]
}

/// Whether a part, trimmed of spaces and tabs, is this word without regard to ASCII case.
fn is_word(part: &[u8], word: &[u8]) -> bool
    ensures { result ≡ is_token word.now part.now }
{
    same_name(trim(part), word)
}

fn skip_front(text: &[u8]) -> &[u8]
    ensures { result.now ≡ skip_ows text.now }
{
    let mut rest = text;
    while let [b' ' | b'\t', more @ ..] = rest {
        rest = more;
    }
    rest
}

fn skip_back(text: &[u8]) -> &[u8]
    ensures { reverse result.now ≡ skip_ows (reverse text.now) }
{
    let mut rest = text;
    while let [more @ .., b' ' | b'\t'] = rest {
        rest = more;
    }
    rest
}

fn trim(text: &[u8]) -> &[u8]
    ensures { result.now ≡ trim_ows text.now }
{
    skip_back(skip_front(text))
}

/// The bytes before the first that is this one, or all where there is none.
fn first_part(text: &[u8], stop: u8) -> &[u8]
    ensures part { result.now ≡ before stop text.now }
    ensures short { length result.now ≤ length text.now }
{
    for (i, b) in text.iter().enumerate() {
        if *b == stop {
            return &text[..i];
        }
    }
    text
}
