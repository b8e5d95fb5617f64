//! What a program reads and writes: a store of files and a sink of bytes, each with a count of its faults.
//!
//! Programs are written over the traits. `MemStore` and `MemSink` are both in memory, with faults on demand.
#![tactic(auto)]

pub mod mem_sink;
pub mod mem_store;
pub mod sink;
pub mod store;
