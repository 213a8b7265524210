//! Tests of the wire: the requests of a link's bytes and an answer's bytes, and the links, clocks and random bytes of
//! `scitt_io`.
#![tactic(auto)]

#[cfg(test)]
mod answers;
#[cfg(test)]
mod cuts;
#[cfg(test)]
mod heads;
#[cfg(test)]
mod limits;
#[cfg(test)]
mod links;
#[cfg(test)]
mod runs;
