//! Tests of the first path: `run_tool` on each command, over files and a key file in memory, and the objects of `scitt_io`.
#![tactic(auto)]

#[cfg(test)]
mod attaching;
#[cfg(test)]
mod keys;
#[cfg(test)]
mod objects;
#[cfg(test)]
mod outside;
#[cfg(test)]
mod policies;
#[cfg(test)]
mod replaying;
#[cfg(test)]
mod rows;
#[cfg(test)]
mod runs;
#[cfg(test)]
mod scripts;
#[cfg(test)]
mod shows;
#[cfg(test)]
mod transparent;
#[cfg(test)]
mod trusting;
