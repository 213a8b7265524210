//! Tests of what is shared among threads: `turn_lock`, and the service over it. They end by themselves, and what they compare is the same however
//! the threads' turns fall.
#![tactic(auto)]

#[cfg(test)]
mod notes;
#[cfg(test)]
mod service;
#[cfg(test)]
mod turns;
