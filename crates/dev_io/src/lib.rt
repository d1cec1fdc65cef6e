//! The outside as traits: where bytes come from, where they go, and how often either has failed.
//!
//! A call answers `Failed` only where the count of faults of its source or sink rose in that call, so that whoever reads or
//! writes through these traits can name the cause of each failure. Nothing here takes memory.
#![tactic(auto)]

mod block;
mod calls;
mod mem_sink;
mod mem_source;
mod plain_source;
mod read_source;
mod sink;
mod source;
mod write_sink;

pub use block::{BLOCK, Block};
pub use mem_sink::MemSink;
pub use mem_source::MemSource;
pub use plain_source::PlainSource;
pub use read_source::ReadSource;
pub use sink::Sink;
pub use source::{Failed, Source, fill, skip};
pub use write_sink::WriteSink;

#[cfg(test)]
mod tests;
