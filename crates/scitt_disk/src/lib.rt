//! Disks: a file that is read and written in place and synced, what it holds, and what a crash may leave of it.
//!
//! A disk is handed in, and each of its calls may fail. What it holds, and each list of bytes that a crash may leave,
//! are told by the disks in memory alone.
#![tactic(auto)]

mod changes;
mod crash;
mod device;
mod edits;
mod failing;
mod file;
mod fuse;
mod laws;
mod lent;
mod memory;
mod sure;

pub use device::{Disk, DiskFault};
pub use file::FileDisk;
pub use fuse::FuseDisk;
pub use laws::{image_laws, moment_laws};
pub use memory::MemDisk;
pub use sure::SureDisk;
