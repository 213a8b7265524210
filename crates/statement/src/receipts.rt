ghost use Rattle.std.specs.Prelude.{◌≡◌, IfOk};
ghost use Rattle.cbor_core.specs.declared.tree.Node.{out-Node};
ghost use Rattle.statement.specs.Claims.{blob_in, blobs_of as blobs_among, blobs_in, receipts_of as all_receipts};

use crate::blobs::Blobs;
use cbor_core::{Bytes, Item, Node};
use cose_sign1::find;
use std::alloc::{AllocError, Global};

fn blob(alloc: Global, node: &Node) -> Result<Bytes, AllocError>
    ensures { IfOk result (λ blob. blob ≡ blob_in (out-Node node.now)) }
{
    match node {
        Node::Bytes(bytes) => Bytes::from_slice(alloc, bytes.as_slice()),
        _ => Ok(Bytes::new(alloc)),
    }
}

fn blobs_of(alloc: Global, items: &[Item]) -> Result<Blobs, AllocError>
    ensures { IfOk result (λ blobs. blobs ≡ blobs_among items.now) }
{
    let mut blobs = Blobs::new(alloc);
    for item in items {
        blobs.push(blob(alloc, &item.node)?)?;
    }
    Ok(blobs)
}

fn blobs_at(alloc: Global, node: &Node) -> Result<Blobs, AllocError>
    ensures { IfOk result (λ blobs. blobs ≡ blobs_in (out-Node node.now)) }
{
    match node {
        Node::Array(items) => blobs_of(alloc, items.as_slice()),
        _ => Ok(Blobs::new(alloc)),
    }
}

/// The receipts: the byte strings of the array beside the unprotected label 394.
pub fn receipts_of(alloc: Global, unprotected: &[(Item, Item)]) -> Result<Blobs, AllocError>
    ensures { IfOk result (λ blobs. blobs ≡ all_receipts unprotected.now) }
{
    match find(394, unprotected) {
        Some(item) => blobs_at(alloc, &item.node),
        None => Ok(Blobs::new(alloc)),
    }
}
