//! The audit of a log's bytes: whether they hold records that are well made, and if not the first that isn't and why. Nothing is
//! believed but the bytes.
#![tactic(auto)]

mod answers;
mod calls;
mod fetching;
mod following;
mod given;
mod laws;
mod reader;
mod record;
mod reports;
mod stepping;
mod walk;
mod words;

pub use answers::Read;
pub use calls::{audit, audit_bytes, audit_since};
pub use laws::report_laws;
pub use reader::LogReader;
pub use words::{AuditStop, Report, Since};
