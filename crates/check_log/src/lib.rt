//! Tests of the log: which ones are well made, the first rule that the others break, and what statements are judged to be.
#![tactic(auto)]

#[cfg(test)]
mod judgement_vectors;
#[cfg(test)]
mod judgements;
#[cfg(test)]
mod log_vectors;
#[cfg(test)]
mod logs;
