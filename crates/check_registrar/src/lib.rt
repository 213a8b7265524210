//! Tests of the registrar. Hashes, keys and lengths come from `bench/registrar.py`, a program of its own in Python by the rules of
//! `docs/profile`.
#![tactic(auto)]

#[cfg(test)]
mod faults;
#[cfg(test)]
mod life;
#[cfg(test)]
mod openings;
#[cfg(test)]
mod rulings;
#[cfg(test)]
mod told;
