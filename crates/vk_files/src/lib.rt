//! Files to read from and a sink to write to, as traits that say what they hold; the reading of a whole file and
//! the writing of a whole output over them; files and a sink in memory, and those of the host.
#![tactic(auto)]

mod calls;
mod files;
mod host;
mod memory_files;
mod memory_sink;
mod reading;
mod shelf;
mod sink;
mod writing;

pub use files::{Files, Opened, ReadFailed};
pub use host::{HostFiles, HostSink};
pub use memory_files::{MemoryFiles, NeverFailFiles};
pub use memory_sink::MemorySink;
pub use reading::{FileFault, read_file};
pub use sink::{Sink, WriteFailed};
pub use writing::{SinkFailed, write_all};

#[cfg(test)]
mod tests;
