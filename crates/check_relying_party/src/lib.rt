//! Tests of `relying_party`.
#![tactic(auto)]

#[cfg(test)]
mod changed;
#[cfg(test)]
mod growth;
#[cfg(test)]
mod many;
#[cfg(test)]
mod statements;
#[cfg(test)]
mod trust_files;
#[cfg(test)]
mod vectors;
