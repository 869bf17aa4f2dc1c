//! The outside of the program: where bytes come from, where they go, and the file that is read and written at places.
//! Each device counts its faults. The devices in memory fail at the calls that a list names.
#![tactic(auto)]

mod calls;
mod disk;
mod disk_log;
mod faults;
mod file_disk;
mod keep;
pub mod laws;
mod memory_disk;
mod memory_sink;
mod memory_source;
mod sink;
mod source;
mod std_sink;
mod std_source;

pub use disk::Disk;
pub use file_disk::FileDisk;
pub use keep::Keep;
pub use memory_disk::MemoryDisk;
pub use memory_sink::MemorySink;
pub use memory_source::MemorySource;
pub use sink::Sink;
pub use source::Source;
pub use std_sink::StdSink;
pub use std_source::StdSource;

/// A device did not do what it was asked for. Its count of faults tells that this happened.
#[derive(Clone, Copy, Debug, PartialEq, Eq)]
pub struct Failed;
