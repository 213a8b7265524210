//! The words that name a key's levels, as `h5w8,h10w4`.
#![tactic(auto)]

mod named;

pub use named::levels_named;
