//! The words that stand for the arguments of calls.

ghost use Rattle.std.specs.Prelude.{◌≡◌, ◌<◌, length, slice_index_or};
ghost use Rattle.link_model.specs.Numbers.{key_of, variables};
ghost use Rattle.asm_mem.specs.declared.value.Val.TheVariants.{Undef};
ghost use Rattle.machine_runs.specs.Arguments.{argument_event, argument_word, home_address, kind_address, pointer_address};

use crate::externals::key_address;
use asm_machine::machine::{AsmCpu, Home};
use asm_mem::value::Val;
use asm_step::answer::AsmEvent;
use layout_file::layout::Layout;
use limits::LEAST_FRAME_BYTES;
use link_model::key::KeyKind;
use linked_program::program::Program;
use ppc_machine::externals::Event;

/// The value of an argument, Undef behind the last.
fn value_at(vals: &[Val], i: usize) -> Val
    ensures { result ≡ slice_index_or vals.now i Undef }
{
    match vals.get(i) {
        Some(v) => *v,
        None => Val::Undef,
    }
}

/// A program whose keys have addresses, and what its address space has.
#[derive(Clone, Copy)]
pub struct Placed<'a> {
    pub layout: &'a Layout,
    pub program: &'a Program<'a>,
    /// By key.
    pub addresses: &'a [u32],
}

impl<'a> Placed<'a> {
    #[tactic(auto, using(crate::proofs::Keys::function_none, crate::proofs::Keys::variable_none, crate::proofs::Keys::external_none))]
    fn key(&self, kind: KeyKind) -> Option<u32>
        ensures { result ≡ key_of self.now.program.now.units kind }
    {
        match kind {
            KeyKind::Function(n) => {
                if n < self.program.functions() {
                    Some(self.program.key_of(kind))
                } else {
                    None
                }
            }
            KeyKind::Variable(n) => {
                if n < self.program.variables() {
                    Some(self.program.key_of(kind))
                } else {
                    None
                }
            }
            KeyKind::External(n) => {
                if n < self.program.externals() {
                    Some(self.program.key_of(kind))
                } else {
                    None
                }
            }
        }
    }

    fn kind_address(&self, kind: KeyKind) -> u32
        ensures { result ≡ kind_address self.now.program.now.units self.now.addresses.now kind }
    {
        match self.key(kind) {
            Some(key) => key_address(self.addresses, key),
            None => 0,
        }
    }

    fn home_address(&self, home: Home) -> u32
        ensures { result ≡ home_address self.now.layout.now self.now.program.now.units self.now.addresses.now home }
    {
        match home {
            Home::Variable(v) => self.kind_address(KeyKind::Variable(v)),
            Home::Frame(n) => {
                let root = self
                    .layout
                    .stack()
                    .hi
                    .saturating_sub(u64::from(LEAST_FRAME_BYTES));
                root.saturating_sub(n) as u32
            }
        }
    }

    fn pointer_address(&self, cpu: &AsmCpu, block: u32, offset: u32) -> Option<u32>
        requires { cpu.now.variables ≡ length (variables self.now.program.now.units) }
        ensures { result ≡ pointer_address self.now.layout.now self.now.program.now.units self.now.addresses.now cpu.now.state.live block offset }
    {
        match cpu.home(block) {
            Some(home) => Some(self.home_address(home).wrapping_add(offset)),
            None => None,
        }
    }

    fn word(&self, cpu: &AsmCpu, value: Val) -> u32
        requires { cpu.now.variables ≡ length (variables self.now.program.now.units) }
        ensures { result ≡ argument_word self.now.layout.now self.now.program.now.units self.now.addresses.now cpu.now.state.live value }
    {
        match value {
            Val::Int(n) => n,
            Val::Ptr(b, o) => self.pointer_address(cpu, b, o).unwrap_or(0),
            Val::Code(f, _) => self.kind_address(KeyKind::Function(f)),
            Val::Ext(key, o) => key_address(self.addresses, key).wrapping_add(o),
            Val::Undef | Val::Stop | Val::Ha(_, _, _) => 0,
        }
    }

    /// The event with the words of its arguments.
    pub fn event(&self, cpu: &AsmCpu, event: &AsmEvent) -> Event
        requires { cpu.now.variables ≡ length (variables self.now.program.now.units) }
        ensures { result ≡ argument_event (argument_word self.now.layout.now self.now.program.now.units self.now.addresses.now cpu.now.state.live) event.now }
    {
        let vals = &event.vals;
        Event {
            number: event.number,
            count: event.count,
            words: [
                self.word(cpu, value_at(vals, 0)),
                self.word(cpu, value_at(vals, 1)),
                self.word(cpu, value_at(vals, 2)),
                self.word(cpu, value_at(vals, 3)),
                self.word(cpu, value_at(vals, 4)),
                self.word(cpu, value_at(vals, 5)),
                self.word(cpu, value_at(vals, 6)),
                self.word(cpu, value_at(vals, 7)),
            ],
        }
    }
}
