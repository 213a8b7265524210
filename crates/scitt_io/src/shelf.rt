// Files in a row, for the folders that keep theirs in memory.
ghost use Rattle.std.specs.Prelude.{◌≡◌, ◌<◌, ◌≤◌, ◌+◌, ◌++◌, [], length, take, drop, MatchOption, None, Some, slice_get};
ghost use Rattle.scitt_io.specs.Shelf.{contents, chosen_bytes};
ghost use Rattle.scitt_io.specs.Files.{file_named};

/// The bytes of the chosen file, and none where no file is chosen.
pub(crate) fn chosen_bytes(files: &[(String, Vec<u8>)], chosen: Option<usize>) -> &[u8]
    ensures { result.now ≡ chosen_bytes files.now chosen }
{
    let Some(place) = chosen else {
        return &[];
    };
    match files.get(place) {
        Some(file) => file.1.as_slice(),
        None => &[],
    }
}

/// The place of the first file of this name.
pub(crate) fn place_of(files: &[(String, Vec<u8>)], name: &str) -> Option<usize>
    ensures { MatchOption result (file_named (contents files.now) name.now ≡ None)
        (λ place. file_named (contents files.now) name.now ≡ Some (chosen_bytes files.now (Some place))) }
{
    for (place, file) in files.iter().enumerate() {
        if file.0.as_str() == name {
            return Some(place);
        }
    }
    None
}

/// Copies the bytes from `at` on, as many as there are and `buf` has room for, and says how many.
pub(crate) fn give(bytes: &[u8], at: usize, buf: &mut [u8]) -> usize
    requires { at ≤ length bytes.now }
    ensures within { at + result ≤ length bytes.now }
    ensures bound { result ≤ length buf.new }
    ensures given { drop at bytes.now ≡ take result buf.new ++ drop (at + result) bytes.now }
    ensures end { result ≡ 0 → 0 < length buf.new → drop (at + result) bytes.now ≡ [] }
{
    let left = &bytes[at..];
    let count = left.len().min(buf.len());
    buf[..count].copy_from_slice(&left[..count]);
    count
}
