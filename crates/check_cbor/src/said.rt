use cbor_core::{DecodeStop, Item, decode_strict_all, decode_wide_all, encode, encoded_len};
use std::alloc::{AllocError, Global};

fn said(alloc: Global, answer: &Result<Item, DecodeStop>) -> Result<String, AllocError> {
    match answer {
        Ok(_) => String::from_str(alloc, "ok"),
        Err(DecodeStop::Fault(fault)) => {
            let why = fault.why;
            let at = fault.at;
            format!(in alloc; "{why:?} at {at}")
        }
        Err(DecodeStop::OutOfMemory) => String::from_str(alloc, "out of memory"),
    }
}

/// Whether the strict bytes of the item are these.
fn is_encoded_so(alloc: Global, item: &Item, bytes: &[u8]) -> bool {
    if encoded_len(item) != Some(bytes.len()) {
        return false;
    }
    match encode(alloc, item) {
        Ok(again) => again.as_slice() == bytes,
        Err(_) => false,
    }
}

fn strict_said(alloc: Global, bytes: &[u8]) -> Result<String, AllocError> {
    let answer = decode_strict_all(alloc, bytes);
    if let Ok(item) = &answer {
        if !is_encoded_so(alloc, item, bytes) {
            return String::from_str(alloc, "encoded otherwise");
        }
    }
    said(alloc, &answer)
}

/// What the strict decoder and the wide one say of all the bytes, with a bar between.
pub fn both_said(alloc: Global, bytes: &[u8]) -> Result<String, AllocError> {
    let strict = strict_said(alloc, bytes)?;
    let wide = said(alloc, &decode_wide_all(alloc, bytes))?;
    format!(in alloc; "{strict}|{wide}")
}

/// The input, and behind it what both decoders say.
pub fn line_said(alloc: Global, line: &str) -> Result<String, AllocError> {
    let Ok(bytes) = hex::decode(alloc, line) else {
        return String::from_str(alloc, "no hexadecimal");
    };
    let answers = both_said(alloc, bytes.as_slice())?;
    format!(in alloc; "{line}|{answers}")
}
