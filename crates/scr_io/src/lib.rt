//! Reading by name and writing in pieces: what a run takes in and gives out.
//!
//! A shelf gives the bytes that stand under a name, and a sink takes bytes. Each counts its faults,
//! so that a call above can say that reading or writing failed only where it did.
#![tactic(auto)]

mod gate;
mod host;
pub mod laws;
mod memory;
mod reading;
mod steps;
mod writing;

pub use gate::{Gate, OpenGate};
pub use host::{HostShelf, HostSink, read_step, write_step};
pub use memory::{MemShelf, MemSink, RESERVE};
pub use reading::{MAX_BYTES, ReadFault, Shelf, read_all};
pub use steps::Steps;
pub use writing::{Sink, write_all};

/// Want of memory.
pub use std::alloc::AllocError as NoMemory;

/// A read or a write did not happen. The count of faults of the shelf or the sink has risen.
#[derive(Clone, Copy, Debug, PartialEq, Eq)]
pub struct Failed;
