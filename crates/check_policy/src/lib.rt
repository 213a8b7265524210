//! Tests of `policy_rules` and `policy_eval`. Documents and verdicts were made by a program of its own, in Python, with an encoder and
//! an evaluator written from the rules of `docs/profile/policy.md`.
#![tactic(auto)]

#[cfg(test)]
mod document_vectors;
#[cfg(test)]
mod documents;
#[cfg(test)]
mod limits;
#[cfg(test)]
mod many_entries;
#[cfg(test)]
mod verdict_vectors;
#[cfg(test)]
mod verdicts;
