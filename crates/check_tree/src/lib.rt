//! Tests of `merkle_tree`. Expected roots and hashes were computed by a program of its own, in Python
//! with `hashlib`, by the recursion of RFC 9162, 2.1.1; the proofs of many sizes are compared
//! with a plain program of the tests' own.
#![tactic(auto)]

#[cfg(test)]
mod paths;
#[cfg(test)]
mod roots;
#[cfg(test)]
mod tables;
