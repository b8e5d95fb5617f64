//! The events of a run so far.

ghost use Rattle.std.specs.Prelude.{◌≡◌, ◌≤◌, [], length, slice_get, IfOk};
ghost use Rattle.std.specs.Option.{option_copied};
ghost use Rattle.limits.specs.declared.TheConstants.{MOST_TRACE_BYTES};
ghost use Rattle.machine_runs.specs.Sums.{read_total};
ghost use Rattle.machine_runs.specs.Steps.{IsAdded};

use crate::calls::{copied, left_behind};
use crate::trace::{EventList, Outcome, Seen, Trace};
use asm_syntax::unit::Reply;
use call_bytes::bytes::CallBytes;
use limits::MOST_TRACE_BYTES;
use ppc_machine::externals::Event;
use std::alloc::{AllocError, Global};
use std::marker::Model;

/// The reply to the call after so many others.
pub fn reply_at(replies: &[Reply], i: usize) -> Option<&Reply>
    ensures { option_copied result ≡ slice_get replies.now i }
{
    replies.get(i)
}

/// The events so far, and how many bytes the next calls may still read.
#[derive(Drop)]
pub struct Events {
    alloc: Global,
    list: Vec<Seen>,
    room: u32,
}

impl Model for Events {
    ghost use Rattle.std.specs.Prelude.{◌≡◌, ◌+◌, List};
    ghost use Rattle.limits.specs.declared.TheConstants.{MOST_TRACE_BYTES};
    ghost use Rattle.machine_runs.specs.declared.trace.Seen.{Seen};
    ghost use Rattle.machine_runs.specs.Sums.{read_total};

    ghost Value = { List Seen };

    ghost view = { λ e. e.list.items };

    ghost invariant = { λ e. e.room + read_total e.list.items ≡ MOST_TRACE_BYTES };
}

impl Events {
    pub fn new(alloc: Global) -> Events
        ensures { result ≡ [] }
    {
        Events {
            alloc,
            list: Vec::new(alloc),
            room: MOST_TRACE_BYTES,
        }
    }

    pub fn count(&self) -> usize
        ensures { result ≡ length self.now }
    {
        self.list.len()
    }

    /// Adds a call, and answers true. Where the calls would read more bytes than those of one trace may, it answers false and adds
    /// nothing.
    #[tactic(auto, using(crate::proofs::Totals::total_more))]
    pub fn add(&mut self, event: Event, bytes: &CallBytes) -> Result<bool, AllocError>
        ensures { IfOk result (λ fits. IsAdded (record { event = event; read = bytes.now }) fits self.old self.new) }
    {
        match left_behind(bytes, self.room) {
            None => Ok(false),
            Some(left) => {
                let read = copied(self.alloc, bytes)?;
                self.list.push(Seen { event, read })?;
                self.room = left;
                Ok(true)
            }
        }
    }

    /// The trace that ends so.
    pub fn ends(self, outcome: Outcome) -> Trace
        ensures trace { result ≡ record { events = self; outcome = outcome } }
        ensures few { read_total self ≤ MOST_TRACE_BYTES }
    {
        Trace {
            events: EventList::from_vec(self.list),
            outcome,
        }
    }
}
