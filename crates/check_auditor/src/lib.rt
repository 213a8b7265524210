//! Tests of `auditor`. The journals, and what an audit says of them, were made by a program of its own, in Python, from the rules of
//! `docs/profile/journal.md` and `docs/profile/log.md`.
#![tactic(auto)]

#[cfg(test)]
mod audit_vectors;
#[cfg(test)]
mod changes;
#[cfg(test)]
mod journals;
#[cfg(test)]
mod reports;
#[cfg(test)]
mod sources;
#[cfg(test)]
mod streams;
