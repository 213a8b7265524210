//! A reader of one CBOR item that comes in pieces (RFC 8949).
#![tactic(auto)]

mod containers;
mod feed;
mod frames;
mod heads;
mod keys;
mod laws;
mod parts;
mod walk;
mod words;

pub use feed::Feed;
pub use laws::pieces_are_read_as_the_whole;
pub use words::Fed;
