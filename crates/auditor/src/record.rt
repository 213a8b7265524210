// A record in a file's bytes.
ghost use Rattle.std.specs.Prelude.{◌≡◌, ◌<◌, ◌^◌, length, IfSome, IfNone};
ghost use Rattle.scitt_journal.specs.Layout.{size_bytes, size_in, Cut};
ghost use Rattle.auditor.specs.Walks.{IsRecord};

// The number that four bytes spell.
fn size_of(bytes: &[u8; 4]) -> u32
    ensures size { result ≡ size_in bytes.now }
    ensures spells { size_bytes result ≡ bytes.now }
{
    u32::from_be_bytes(*bytes)
}

/// The length at the front of these bytes.
pub(crate) fn length_of(four: &[u8]) -> u32
    requires { length four.now ≡ 4 }
    ensures size { result ≡ size_in four.now }
    ensures spells { size_bytes result ≡ four.now }
{
    let mut bytes = [0; 4];
    bytes.copy_from_slice(four);
    size_of(&bytes)
}

/// The body of the record that follows an open gate, and the bytes from the next gate on. `None` where they are too few.
pub(crate) fn split_record(tail: &[u8]) -> Option<(&[u8], &[u8])>
    ensures record { IfSome result (λ parts. IsRecord tail.now parts.0.now parts.1.now) }
    ensures cut { IfNone result (Cut tail.now) }
{
    if tail.len() < 4 {
        return None;
    }
    let (four, behind) = tail.split_at(4);
    let size = length_of(four) as usize;
    if behind.len() <= size {
        return None;
    }
    Some(behind.split_at(size))
}
