//! Input and output: sources and sinks of bytes that count their faults, and the sample file.
//!
//! The program reads everything through a [`Source`] and writes everything through a [`Sink`].
//! Their contracts state which bytes moved, if that is known, and that a call fails only if the
//! count of faults rose. [`SampleReader`] reads a sample file from a source. Its contracts state
//! that the samples are those that the file's bytes spell, and that a bad file gets its fault.
#![tactic(auto)]

mod file_fault;
mod filling;
mod header;
pub mod laws;
mod memory_sink;
mod memory_source;
mod reader_source;
mod sample_bytes;
mod sample_reader;
mod samples;
mod sink;
mod source;
mod width;
mod writer_sink;

pub use chip_core::Width;
pub use file_fault::FileFault;
pub use filling::fill;
pub use header::{Header, header_bytes};
pub use memory_sink::MemorySink;
pub use memory_source::MemorySource;
pub use reader_source::ReaderSource;
pub use sample_bytes::sample_bytes_into;
pub use sample_reader::SampleReader;
pub use sink::{Sink, write_all};
pub use source::{Failed, Source};
pub use width::bytes_for;
pub use writer_sink::WriterSink;
