//! Tests of the keys: `lms_ots`, `lms_tree` and `hss_keys`.
#![tactic(auto)]

#[cfg(test)]
mod hierarchies;
#[cfg(test)]
mod one_time;
#[cfg(test)]
mod trees;
#[cfg(test)]
mod vectors;
