//! Tests of a connection that is served on one thread. The hashes of what is heard come from `bench/sessions.py` and `bench/large.py`,
//! programs of their own in Python by the rules of `docs/profile`.
#![tactic(auto)]

#[cfg(test)]
mod drafts;
#[cfg(test)]
mod faults;
#[cfg(test)]
mod heads;
#[cfg(test)]
mod large;
#[cfg(test)]
mod life;
#[cfg(test)]
mod requests;
#[cfg(test)]
mod scenes;
#[cfg(test)]
mod talks;
