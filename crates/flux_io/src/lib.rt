//! A folder of named files and a sink for bytes, in memory and over the system.
//!
//! The outside may fail at any call. Each failure counts as a fault, so that a caller can tell an
//! answer that comes of one from an answer that the files alone decide.
#![tactic(auto)]

mod calls;
mod files;
mod folder;
mod memory;
mod real;
mod sink;

pub use calls::{Fault, read_all, write_all};
pub use folder::{Folder, Refused};
pub use memory::{MemFolder, MemSink};
pub use real::{RealFolder, RealSink};
pub use sink::Sink;

#[cfg(test)]
mod tests;
