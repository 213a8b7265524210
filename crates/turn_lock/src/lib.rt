//! A lock whose value only grows, and the seats of its callers: what each caller has seen is a beginning of one list.
//!
//! The value stands in one slot. A caller that wants it wins the turn, by one compare and exchange on one word, takes the
//! value out, works on it, puts it back and gives the turn up, by one store. A seat remembers the list that it saw last.
#![tactic(auto)]

pub use grows::Grows;
pub use lock::{OutOfMemory, SeatsOut, TurnLock};
pub use seat::CallerSeat;

mod grows;
mod lock;
mod seat;
mod turns;
mod view;
