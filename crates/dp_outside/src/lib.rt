//! The outside of the program: files that are read, a sink that is written, and a gate that each turn of a
//! shard passes. Logic above this crate is generic over these traits; only their adapters touch the system.
#![tactic(auto)]

mod failing;
mod files;
mod fine;
mod gates;
mod mem_shelf;
mod mem_sink;
mod reading;
mod real;
mod shelves;
mod sinks;
mod writing;

pub use failing::Failed;
pub use fine::{FineShelf, FineSink};
pub use gates::{Gate, OpenGate};
pub use mem_shelf::MemShelf;
pub use mem_sink::MemSink;
pub use reading::{ReadEnd, read_all};
pub use real::{FileShelf, OutSink};
pub use shelves::Shelf;
pub use sinks::Sink;
pub use writing::put_all;
