//! Tests of the disks and of the journal.
#![tactic(auto)]

#[cfg(test)]
mod disks;
#[cfg(test)]
mod faults;
#[cfg(test)]
mod files;
#[cfg(test)]
mod ledgers;
mod lending;
mod reading;
#[cfg(test)]
mod stops;

pub use lending::made_on;
pub use reading::records_of;
