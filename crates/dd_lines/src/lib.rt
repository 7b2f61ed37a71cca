//! Turns a stream of bytes into lines and writes pieces out, with every way in which that can fail told apart.
//!
//! - `outside`: what a source of bytes and a sink of bytes promise.
//! - `reader`: cuts the bytes of a source into lines, within a limit of bytes.
//! - `write`: gives a whole piece to a sink.
//! - `memory`: a source and a sink in memory, which fail at chosen calls.
//! - `standard`: a source over a reader of the standard library, and a sink over a writer.
#![tactic(auto)]

mod memory;
mod outside;
mod reader;
mod standard;
mod write;

pub use memory::{MemSink, MemSource};
pub use outside::{Failed, Sink, Source, WriteFault};
pub use reader::{LineReader, LineStep, ReadErr};
pub use standard::{StdSink, StdSource};
pub use std::alloc::AllocError as NoMemory;
pub use write::write_whole;
