//! Tests of `generator`.
#![tactic(auto)]

#[cfg(test)]
mod logs;
