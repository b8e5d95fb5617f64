//! The machine and its steps.

ghost use Rattle.std.specs.Prelude.{◌≡◌, ◌+◌, [], IsTrue, Some};
ghost use Rattle.std.specs.Option.{option_copied};
ghost use Rattle.effect_model.specs.Files.{put};
ghost use Rattle.effect_model.specs.declared.Action.TheVariants.{Load, Store};
ghost use Rattle.effect_model.specs.declared.Place.TheVariants.{Lr};
ghost use Rattle.flat_mem.specs.Access.{fetched};
ghost use Rattle.isa_model.specs.Word.{wrapped};
ghost use Rattle.ppc_decode.specs.Word.{fits};
ghost use Rattle.ppc_decode.specs.declared.machine.Machine.TheVariants.{Trap};
ghost use Rattle.ppc_machine.specs.Actions.{action_of};
ghost use Rattle.asm_shapes.specs.Signatures.{is_valid_sig};
ghost use Rattle.ppc_machine.specs.Answers.{Runs, read_by, step_from};
ghost use Rattle.ppc_machine.specs.Buffers.{aligned};
ghost use Rattle.ppc_machine.specs.Starts.{first_memory, first_cpu};
ghost use Rattle.ppc_machine.specs.State.{state};
ghost use Rattle.ppc_machine.specs.Steps.{at_external, branch_place, fetched_as, flat_step, jumped, performed, target};

use crate::actions::action;
use crate::calls::{buffers_fault, event, fill_buffers, read_buffers};
use crate::externals::{Event, ExtTable, External};
use crate::registers::Registers;
use asm_syntax::unit::Reply;
use call_bytes::arguments::Arguments;
use call_bytes::bytes::CallBytes;
use effect_model::{Action, Form, Operand, Place};
use flat_mem::memory::{FaultKind, FlatMem};
use layout_file::layout::Layout;
use ppc_decode::decoding::decode;
use ppc_decode::machine::Machine;
use std::marker::Model;

/// What a step did.
#[derive(Clone, Copy, Drop)]
pub enum Flat {
    Went,
    Called(Event),
    Ended(u32),
    Starved,
    Faulted(FaultKind),
}

/// What the registers hold that the first state leaves open.
#[derive(Clone, Copy, Drop)]
pub struct Junk {
    pub regs: [u32; 32],
    pub cr: u32,
    pub ctr: u32,
    pub xer: u32,
}

/// The registers, and the address of the instruction that comes next.
#[derive(Drop)]
struct Processor {
    file: Registers,
    pc: u32,
}

impl Model for Processor {
    ghost use Rattle.ppc_machine.specs.State.{Processor};

    ghost Value = { Processor };

    ghost view = { λ c. record { file = c.file; pc = c.pc } };
}

/// The address with its low two bits cleared.
fn aligned(a: u32) -> u32
    ensures { result ≡ aligned a }
{
    a - a % 4
}

impl Processor {
    fn next(&mut self)
        ensures { self.new ≡ record self.old { pc = wrapped (self.old.pc + 4) } }
    {
        self.pc = self.pc.wrapping_add(4);
    }

    fn perform_store(
        &mut self,
        mem: &mut FlatMem,
        form: Form,
        p: Place,
        x: Operand,
        y: Operand,
        to: Place,
    ) -> Flat
        ensures { Runs (λ t. performed t Trap (Store form p x y to)) result self.old mem.old self.new mem.new }
    {
        let a = self.file.read(x).wrapping_add(self.file.read(y));
        match mem.store(form, a, self.file.get(p)) {
            Ok(()) => {
                self.file.put(to, a);
                self.next();
                Flat::Went
            }
            Err(kind) => Flat::Faulted(kind),
        }
    }

    fn perform_load(&mut self, mem: &FlatMem, form: Form, x: Operand, y: Operand, p: Place) -> Flat
        ensures { Runs (λ t. performed t Trap (Load form x y p)) result self.old mem.now self.new mem.now }
    {
        let a = self.file.read(x).wrapping_add(self.file.read(y));
        match mem.load(form, a) {
            Some(v) => {
                self.file.put(p, v);
                self.next();
                Flat::Went
            }
            None => Flat::Faulted(FaultKind::Unmapped),
        }
    }

    fn target(&self, mem: &FlatMem, d: i32) -> u32
        ensures { result ≡ target (state self.now mem.now) d }
    {
        self.pc.wrapping_add(d.cast_unsigned())
    }

    fn branch_place(&self, mem: &FlatMem, bo: u8, bi: u8, d: i32) -> u32
        ensures { result ≡ branch_place (state self.now mem.now) bo bi d }
    {
        let to = self.target(mem, d);
        let next = self.pc.wrapping_add(4);
        if bo == 16 {
            let n = self.file.get(Place::Ctr).wrapping_add(0xffff_ffff);
            if n == 0 { next } else { to }
        } else {
            let is_one = self.file.get(Place::Bit(bi)) == 1;
            let goes = if bo == 12 { is_one } else { !is_one };
            if goes { to } else { next }
        }
    }

    fn link(&mut self)
        ensures { self.new ≡ record self.old { file = put self.old.file Lr (wrapped (self.old.pc + 4)) } }
    {
        let next = self.pc.wrapping_add(4);
        self.file.put(Place::Lr, next);
    }

    fn jump(&mut self, mem: &FlatMem, m: &Machine) -> Flat
        ensures { Runs (λ t. jumped t m.now) result self.old mem.now self.new mem.now }
    {
        match *m {
            Machine::B(d) => {
                self.pc = self.target(mem, d);
                Flat::Went
            }
            Machine::Bl(d) => {
                let to = self.target(mem, d);
                self.link();
                self.pc = to;
                Flat::Went
            }
            Machine::Bc(bo, bi, d) => {
                self.pc = self.branch_place(mem, bo, bi, d);
                self.file.count(bo);
                Flat::Went
            }
            Machine::Blr => {
                self.pc = aligned(self.file.get(Place::Lr));
                Flat::Went
            }
            Machine::Bctr => {
                self.pc = aligned(self.file.get(Place::Ctr));
                Flat::Went
            }
            Machine::Bctrl => {
                let to = aligned(self.file.get(Place::Ctr));
                self.link();
                self.pc = to;
                Flat::Went
            }
            _ => Flat::Faulted(FaultKind::Trap),
        }
    }

    fn perform(&mut self, mem: &mut FlatMem, m: &Machine) -> Flat
        requires { IsTrue (fits m.now) }
        ensures { Runs (λ t. performed t m.now (action_of m.now)) result self.old mem.old self.new mem.new }
    {
        match action(m) {
            Action::Work(es) => {
                self.file.work(&es);
                self.next();
                Flat::Went
            }
            Action::Divide(e) => {
                if self.file.stops(&e) {
                    return Flat::Faulted(FaultKind::Divide);
                }
                self.file.apply(&e);
                self.next();
                Flat::Went
            }
            Action::Load(form, x, y, p) => self.perform_load(mem, form, x, y, p),
            Action::Store(form, p, x, y, to) => self.perform_store(mem, form, p, x, y, to),
            Action::MoveFromCr(p) => {
                let w = self.file.condition();
                self.file.put(p, w);
                self.next();
                Flat::Went
            }
            Action::Jump => self.jump(mem, m),
        }
    }

    /// Runs the instruction at the place.
    fn run_word(&mut self, mem: &mut FlatMem) -> Flat
        ensures { Runs (λ t. fetched_as t (fetched t.mem t.pc)) result self.old mem.old self.new mem.new }
    {
        match mem.fetch(self.pc) {
            Err(kind) => Flat::Faulted(kind),
            Ok(word) => match decode(word) {
                None => Flat::Faulted(FaultKind::Opcode),
                Some(m) => self.perform(mem, &m),
            },
        }
    }

    /// Calls the external function at the place.
    #[tactic(auto, using(crate::proofs::SigLaws::passed, crate::proofs::SigLaws::few, crate::proofs::KeptLaws::reads_kept))]
    fn call(
        &mut self,
        mem: &mut FlatMem,
        x: &External,
        reply: Option<&Reply>,
        bytes: &mut CallBytes,
    ) -> Flat
        requires sig { IsTrue (is_valid_sig x.now.sig) }
        requires none { bytes.old ≡ [] }
        ensures answers { Runs (λ t. at_external t (option_copied reply.entry) (Some x.now)) result self.old mem.old self.new mem.new }
        ensures reads { bytes.new ≡ read_by (at_external (state self.old mem.old) (option_copied reply.entry) (Some x.now)) }
    {
        let args = Arguments::new(x.sig.args.items());
        if let Some(kind) = buffers_fault(mem, &self.file, &x.sig, &args) {
            return Flat::Faulted(kind);
        }
        let Some(r) = reply else {
            return Flat::Starved;
        };
        let event = event(&self.file, x, &args);
        read_buffers(mem, &self.file, &x.sig, &args, bytes);
        fill_buffers(mem, &self.file, &x.sig, &args, r.fills.items());
        let back = aligned(self.file.get(Place::Lr));
        self.file.put_reply(r);
        self.pc = back;
        Flat::Called(event)
    }
}

/// A PowerPC without its memory.
#[derive(Drop)]
pub struct Cpu {
    processor: Processor,
    stop: u32,
}

impl Model for Cpu {
    ghost use Rattle.ppc_machine.specs.State.{FlatCpu};

    ghost Value = { FlatCpu };

    ghost view = { λ c. record { processor = c.processor; stop = c.stop } };
}

impl Cpu {
    /// The first state at a function's address. The root frame's first word is written.
    pub fn start(entry: u32, layout: &Layout, junk: &Junk, mem: &mut FlatMem) -> Cpu
        ensures processor { result ≡ first_cpu entry layout.now junk.now }
        ensures memory { mem.new ≡ first_memory layout.now mem.old }
    {
        let root = (layout.stack().hi - 16) as u32;
        mem.set_value(Form::Word, root, 0);
        let mut gprs = junk.regs;
        gprs[1] = root;
        gprs[2] = layout.r2();
        gprs[13] = layout.r13();
        let file = Registers::new(gprs, junk.cr, layout.stop(), junk.ctr, junk.xer);
        Cpu {
            processor: Processor { file, pc: entry },
            stop: layout.stop(),
        }
    }

    pub fn registers(&self) -> &Registers
        ensures { result.now ≡ self.now.processor.file }
    {
        &self.processor.file
    }

    /// The address of the instruction that comes next.
    pub fn pc(&self) -> u32
        ensures { result ≡ self.now.processor.pc }
    {
        self.processor.pc
    }

    /// One step. `bytes` takes the bytes of the buffers that a call reads, and nothing at any other step.
    #[tactic(auto, unfolding(crate::specs::Steps::flat_step), using(crate::proofs::Quiet::fetched_quiet))]
    pub fn step(
        &mut self,
        mem: &mut FlatMem,
        ext: &ExtTable,
        reply: Option<&Reply>,
        bytes: &mut CallBytes,
    ) -> Flat
        ensures answers { Runs (step_from self.old ext.now (option_copied reply.entry)) result
            self.old.processor mem.old self.new.processor mem.new }
        ensures reads { bytes.new
            ≡ read_by (step_from self.old ext.now (option_copied reply.entry) (state self.old.processor mem.old)) }
        ensures stop { self.new.stop ≡ self.old.stop }
    {
        bytes.clear();
        if self.processor.pc == self.stop {
            return Flat::Ended(self.processor.file.get(Place::Gpr(3)));
        }
        match ext.at(self.processor.pc) {
            None => self.processor.run_word(mem),
            Some(x) => self.processor.call(mem, x, reply, bytes),
        }
    }
}
