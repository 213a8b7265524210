// What the programs read from and write to outside themselves, each as a trait with a written meaning.
#![tactic(auto)]

pub mod clock;
pub mod clocks;
pub mod folder;
pub mod link;
pub mod mem_link;
pub mod memory;
pub mod names;
pub mod plan;
pub mod random;
pub mod readings;
pub mod real;
mod shelf;
pub mod sink;
pub mod source;
pub mod sure;
pub mod tcp;
pub mod words;

pub use clock::{Clock, ClockFault};
pub use clocks::{MemClock, SureClock, WallClock};
pub use folder::Folder;
pub use link::Link;
pub use mem_link::{MemLink, SureLink};
pub use memory::{MemFolder, MemSink, MemSource};
pub use names::Names;
pub use plan::Plan;
pub use random::RandomSource;
pub use readings::Readings;
pub use real::{FileFolder, StdSink};
pub use sink::{Sink, WriteFault, write_all};
pub use source::{ReadFault, ReadStop, Source, make_room, read_behind, read_to_end};
pub use sure::{SureFolder, SureSink, SureSource};
pub use tcp::TcpLink;
pub use words::{OutOfMemory, Words};
