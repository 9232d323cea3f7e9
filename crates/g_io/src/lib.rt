//! The outside: where bytes come from, and where they go.
#![tactic(auto)]

mod edge;
mod memory_sink;
mod memory_source;
mod read;
mod remainder;
mod sink;
mod source;
mod write;

pub use edge::{StdinSource, StdoutSink};
pub use memory_sink::MemorySink;
pub use memory_source::{MemorySource, NeverFailsSource};
pub use read::{ReadRefused, read_all};
pub use sink::Sink;
pub use source::{Failed, Source};
pub use write::{WriteFault, write_all_of};
