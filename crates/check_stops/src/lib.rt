//! A log over a disk that stops after each of its calls in turn: what a stop leaves, against what was answered.
#![tactic(auto)]

#[cfg(test)]
mod stages;
#[cfg(test)]
mod sweep;
