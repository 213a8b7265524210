//! Tests of `cose_sign1` and `statement`.
#![tactic(auto)]

#[cfg(test)]
mod encodings;
#[cfg(test)]
mod hostile;
#[cfg(test)]
mod hostile_vectors;
#[cfg(test)]
mod message_vectors;
#[cfg(test)]
mod messages;
#[cfg(test)]
mod statement_vectors;
#[cfg(test)]
mod statements;
