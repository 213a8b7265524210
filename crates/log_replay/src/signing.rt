// What the service signs over a root.

ghost use Rattle.std.specs.Prelude.{◌≡◌, ◌≤◌, length, IfOk};
ghost use Rattle.receipts.specs.Signed.{signed_text};

use cbor_core::{Bytes, Text, zeros};
use receipts::{tbs_into, tbs_len};
use statement::Hash;
use std::alloc::{AllocError, Global};

/// The signed text for a size and a root.
pub(crate) fn signed_text_of(
    alloc: Global,
    name: &Text,
    kid: &Hash,
    size: u32,
    root: &Hash,
) -> Result<Bytes, AllocError>
    requires some { 1 ≤ length name.now }
    requires most { length name.now ≤ 128 }
    ensures { IfOk result (λ text. text ≡ signed_text name.now kid.now size root.now) }
{
    let mut bytes = zeros(alloc, tbs_len(name, size))?;
    tbs_into(name, kid, size, root, &mut bytes);
    Ok(Bytes::from_vec(bytes))
}
