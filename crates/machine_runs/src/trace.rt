//! What a run shows.

use asm_step::answer::Why;
use asm_syntax::listed::Listed;
use asm_syntax::unit::ByteList;
use flat_mem::memory::FaultKind;
use ppc_machine::externals::Event;

/// The bytes of each buffer that a call reads, in the signature's order.
pub type ReadList = Listed<ByteList>;

pub type EventList = Listed<Seen>;

/// A call of an external function, under its key, and what it reads from buffers.
#[derive(Debug, PartialEq, Eq, Drop)]
pub struct Seen {
    pub event: Event,
    pub read: ReadList,
}

/// How a trace ends.
#[derive(Clone, Copy, Debug, PartialEq, Eq, Drop)]
pub enum Outcome {
    /// All steps were made.
    Going,
    /// With the word of r3.
    Ended(u32),
    /// No reply was left for a call.
    Starved,
    /// Of the assembly machine alone.
    Undefined(Why),
    /// The next frame does not fit the stack. Of the assembly machine alone.
    Stack,
    /// Of the flat machine alone.
    Faulted(FaultKind),
    /// The next call reads more bytes than those of one trace may.
    Full,
}

/// The calls of external functions in their order, and how it ends.
#[derive(Debug, Drop)]
pub struct Trace {
    pub events: EventList,
    pub outcome: Outcome,
}
