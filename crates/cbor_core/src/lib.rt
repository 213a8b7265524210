//! CBOR items, and their strict and wide spelling (RFC 8949, 3 and 4.2.1).
#![tactic(auto)]

mod comparing;
mod decoding;
mod encoding;
mod heads;
mod items;
mod laws;
mod limits;
mod measuring;
mod node_heads;
mod order;
mod pieces;
mod places;
mod reading;
mod same;
mod strings;
mod tree;
mod words;
mod writing;

pub use decoding::{decode_strict, decode_strict_all, decode_wide, decode_wide_all, strict_of};
pub use encoding::{encode, encode_into, encoded_len, zeros};
pub use items::{
    array_of, bytes_of, is_nil, is_nint, is_uint, map_of, nint_of, tag_of, text_of, uint_of,
};
pub use laws::{
    bytes_have_one_answer, keys_are_compared_as_items, map_keys_by_pairs, read_keys_are_spelled,
    spelled_is_decoded, spellings_are_prefix_free, strict_is_wide, strict_item_by_kind,
    strict_item_is_exact, strict_items_are_spelled, strict_len_by_kind, strict_spelling_is_unique,
    strict_text_is_exact, whole_bytes_have_one_answer, wide_item_is_exact,
};
pub use order::below;
pub use pieces::{head_len, put, put_head};
pub use places::{has_ordered_key, is_known, key_order};
pub use same::{has_key, same_item};
pub use strings::{Bytes, Text};
pub use tree::{Item, Node, Pairs};
pub use words::{DecodeStop, EncodeStop, Fault, Grammar, Why};
