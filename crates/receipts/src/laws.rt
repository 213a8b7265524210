ghost use Rattle.receipts.specs.Laws.{ProtectedIsStrict, ProofIsStrict, ReceiptIsStrict, ReceiptIsRead, BytesAreReceipt};

use cbor_core::{
    strict_item_by_kind, strict_item_is_exact, strict_items_are_spelled, strict_len_by_kind,
    strict_text_is_exact,
};

/// A law: a receipt within the limits has strict bytes, where its signature has at most 4,198,400. What it is written as is read as
/// that receipt, and so are bytes that spell it.
pub fn receipts_are_read_again()
    ensures protected { ProtectedIsStrict }
    ensures proof { ProofIsStrict }
    ensures strict { ReceiptIsStrict }
    ensures again { ReceiptIsRead }
    ensures bytes { BytesAreReceipt }
{
    strict_item_by_kind();
    strict_len_by_kind();
    strict_items_are_spelled();
    strict_text_is_exact();
    strict_item_is_exact();
}
