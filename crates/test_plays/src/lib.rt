//! Plays for tests: statements that are drafted in a few words, and lives of a log on one thread, told as text. It has no tests of its
//! own.
#![tactic(auto)]

mod drafting;
mod lives;
mod plays;
mod steps;
mod stops;

pub use drafting::{Drafted, Props, make_props, params_of};
pub use lives::{Life, loads, makes, makes_until};
pub use plays::{Act, Play, told_play, told_with};
pub use steps::Step;
