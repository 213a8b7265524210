//! Tests of a connection that is served beside others on threads. They end by themselves, and what they compare is the same however
//! the threads' turns fall.
#![tactic(auto)]

#[cfg(test)]
mod gates;
#[cfg(test)]
mod meeting;
