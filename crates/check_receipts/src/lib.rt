//! Tests of `receipts`, and of `attach` and `key_set` of `cose_sign1`.
#![tactic(auto)]

#[cfg(test)]
mod attaching;
#[cfg(test)]
mod message_vectors;
#[cfg(test)]
mod reading;
#[cfg(test)]
mod receipt_vectors;
#[cfg(test)]
mod signing;
