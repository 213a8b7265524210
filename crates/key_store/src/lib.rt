//! An issuer's key file: a journal of what its key is made from and of reservations, from which each index is given at
//! most once, whatever stops between.
#![tactic(auto)]

mod key_file;
mod laws;
mod reading;
mod records;
mod stops;

pub use key_file::KeyFile;
pub use laws::key_laws;
pub use records::KeyHead;
pub use stops::{KeyStop, TakeStop};
