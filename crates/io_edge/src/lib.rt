//! Sources of bytes and sinks for bytes, each with a count of its faults.
//!
//! Contracts see a source as an `Input` and a sink as an `Output`: the bytes left or taken, if they are known, and the
//! count of faults, which rises if and only if a call fails. `read_all` reads to the end, up to a bound: `Ok` has all
//! bytes that were left, and `TooLong` means that more were left than the bound. `MemSource` and `MemSink` are in
//! memory and fail at the calls that the caller lists. `StdSource` and `StdSink` wrap readers and writers of std, and
//! know what these know.
//!
//! Not here: what the bytes mean (the crates of texts), log files (`disk_trait`), and what a real stream carries.
#![tactic(auto)]

mod gate;
mod mem_sink;
mod mem_source;
mod plan;
mod reading;
mod sink;
mod source;
mod std_sink;
mod std_source;

pub use gate::{Gate, GatePoint, OpenGate};
pub use mem_sink::MemSink;
pub use mem_source::MemSource;
pub use reading::read_all;
pub use sink::{Sink, SinkFault};
pub use source::{ReadFault, Source, SourceFault};
pub use std_sink::StdSink;
pub use std_source::StdSource;
