//! The state of the assembly machine, and its steps.

ghost use Rattle.std.specs.Prelude.{◌≡◌, ◌<◌, ◌≤◌, ◌%◌, ℕ, suc, true, false, [], Some, IsSome, IfOk, OnErr, if◌then◌else◌};
ghost use Rattle.std.specs.Option.{option_copied};
ghost use Rattle.effect_model.specs.declared.Place.TheVariants.{Gpr, Bit};
ghost use Rattle.effect_model.specs.Files.{get, put};
ghost use Rattle.asm_mem.specs.declared.value.Val.TheVariants.{Undef, Code, Ptr};
ghost use Rattle.asm_values.specs.Accesses.{changed, load_by};
ghost use Rattle.asm_values.specs.Actions.{HasField, plain_action};
ghost use Rattle.asm_step.specs.Answers.{Acts, Answers, Shows};
ghost use Rattle.asm_step.specs.Calls.{answered, buffer_fits, called_sig, is_argument};
ghost use Rattle.call_bytes.specs.Calls.{arguments};
ghost use Rattle.std.specs.List.{list_all};
ghost use Rattle.asm_step.specs.Callable.{FitsInstr};
ghost use Rattle.asm_step.specs.Frames.{has_size, holds, popped, popped_by, pushed};
ghost use Rattle.asm_step.specs.LinkedCode.{instruction};
ghost use Rattle.asm_mem.specs.Blocks.{load, newest, room, total, total_from};
ghost use Rattle.asm_step.specs.Jumps.{at_label, branched, counts, jump, jumped, linked, tabled};
ghost use Rattle.asm_step.specs.State.{Went, gone};
ghost use Rattle.asm_step.specs.Steps.{act, asm_step, at_code, divided, finish, frame_comes, loaded, makes_frame, performed, jumps_by};
ghost use Rattle.asm_step.specs.Steps.{stored};
ghost use Rattle.asm_values.specs.Files.{asm_divided, value_read};
ghost use Rattle.asm_values.specs.Operands.{sum_args};

use crate::answer::{Asm, Why};
use crate::buffers::{are_arguments, buffers_fit, event, fill_all, give_results, read_all};
use crate::executable::{Callee, Executable};
use asm_mem::blocks::Blocks;
use asm_mem::value::Val;
use asm_syntax::instr::{Instr, Jump, Plain};
use asm_syntax::unit::Reply;
use asm_values::accesses::{load, store};
use asm_values::actions::action;
use asm_values::operands::{sum_args, symbol_value};
use asm_values::registers::Registers;
use call_bytes::bytes::CallBytes;
use effect_model::{Action, Effect, Form, Operand, Place};
use limits::{MOST_BLOCKS, MOST_INSTRUCTIONS};
use std::alloc::AllocError;
use std::marker::Model;

/// Registers, memory and the place.
#[derive(Drop)]
pub struct Machine {
    file: Registers,
    blocks: Blocks,
    place: Val,
}

impl Model for Machine {
    ghost use Rattle.asm_step.specs.State.{State};

    ghost Value = { State };

    ghost view = { λ m. record { file = m.file; place = m.place; live = m.blocks.live; next = m.blocks.next } };
}

impl Machine {
    pub fn new(file: Registers, blocks: Blocks, place: Val) -> Machine
        ensures { result ≡ record { file = file; place = place; live = blocks.live; next = blocks.next } }
    {
        Machine {
            file,
            blocks,
            place,
        }
    }

    /// To the next instruction.
    fn go_on(&mut self, f: u32, i: u32) -> Asm
        requires { i < MOST_INSTRUCTIONS }
        ensures { Acts (Went (gone self.old f i self.old.file)) result self.old self.new }
    {
        self.place = Val::Code(f, i + 1);
        Asm::Went
    }

    /// Puts a value into a register, and goes to the next instruction.
    fn put_on(&mut self, f: u32, i: u32, p: Place, v: Val) -> Asm
        requires { i < MOST_INSTRUCTIONS }
        ensures { Acts (Went (gone self.old f i (put self.old.file p v))) result self.old self.new }
    {
        self.file.put(p, v);
        self.go_on(f, i)
    }

    // ---- plain instructions

    fn perform_divide(&mut self, p: &Executable, f: u32, i: u32, e: &Effect) -> Asm
        requires { i < MOST_INSTRUCTIONS }
        ensures { Acts (divided f i self.old (asm_divided p.now.kinds self.old.live e.now self.old.file)) result self.old self.new }
    {
        if self.file.divide(p.kinds(), &self.blocks, e) {
            self.go_on(f, i)
        } else {
            Asm::Undefined(Why::Divide)
        }
    }

    fn perform_load(&mut self, f: u32, i: u32, form: Form, at: Val, to: Place) -> Asm
        requires { i < MOST_INSTRUCTIONS }
        ensures { Acts (loaded f i self.old to (load_by self.old.live form at)) result self.old self.new }
    {
        match load(&self.blocks, form, at) {
            Some(v) => self.put_on(f, i, to, v),
            None => Asm::Undefined(Why::Access),
        }
    }

    fn perform_store(&mut self, f: u32, i: u32, form: Form, at: Val, v: Val) -> Asm
        requires { i < MOST_INSTRUCTIONS }
        ensures { Acts (stored f i self.old form at v) result self.old self.new }
    {
        if store(&mut self.blocks, form, at, v) {
            self.go_on(f, i)
        } else {
            Asm::Undefined(Why::Access)
        }
    }

    /// The sum of the two parts of an address.
    fn address(&self, p: &Executable, x: Operand, y: Operand) -> Val
        ensures { result ≡ sum_args p.now.kinds (value_read self.now.file x) (value_read self.now.file y) }
    {
        sum_args(p.kinds(), self.file.read(x), self.file.read(y))
    }

    // ---- jumps

    fn jump(&mut self, p: &Executable, v: Val) -> Asm
        ensures { Acts (jump p.now v self.old) result self.old self.new }
    {
        if p.is_target(v) {
            self.place = v;
            Asm::Went
        } else {
            Asm::Undefined(Why::Target)
        }
    }

    /// The same with the next instruction in LR.
    fn jump_linked(&mut self, p: &Executable, f: u32, i: u32, v: Val) -> Asm
        requires { i < MOST_INSTRUCTIONS }
        ensures { Acts (jump p.now v (linked self.old f i)) result self.old self.new }
    {
        if p.is_target(v) {
            self.file.put(Place::Lr, Val::Code(f, i + 1));
            self.place = v;
            Asm::Went
        } else {
            Asm::Undefined(Why::Target)
        }
    }

    /// To a label, or else to the next instruction.
    fn choose(&mut self, p: &Executable, f: u32, i: u32, label: u32, taken: bool) -> Asm
        requires { i < MOST_INSTRUCTIONS }
        ensures { Acts (Went (record self.old { place = if taken then at_label p.now f label else Code f (suc i) }))
            result self.old self.new }
    {
        if taken {
            self.place = Val::Code(f, p.place_of_label(f, label));
            Asm::Went
        } else {
            self.go_on(f, i)
        }
    }

    fn count(&mut self, p: &Executable, f: u32, i: u32, label: u32) -> Asm
        requires { i < MOST_INSTRUCTIONS }
        ensures { Acts (counts p.now f i self.old label self.old.file.ctr) result self.old self.new }
    {
        match self.file.get(Place::Ctr) {
            Val::Int(n) => {
                let n = n.wrapping_sub(1);
                self.file.put(Place::Ctr, Val::Int(n));
                self.choose(p, f, i, label, n != 0)
            }
            _ => Asm::Undefined(Why::Count),
        }
    }

    fn run_jump(&mut self, p: &Executable, f: u32, i: u32, key: u32, j: &Jump) -> Asm
        requires { i < MOST_INSTRUCTIONS }
        ensures { Acts (jumped p.now f i self.old key j.now) result self.old self.new }
    {
        let lr = self.file.get(Place::Lr);
        let ctr = self.file.get(Place::Ctr);
        match j {
            Jump::B(label) => self.choose(p, f, i, *label, true),
            Jump::Bs(_) => self.jump(p, symbol_value(p.kinds(), key, 0, 0)),
            Jump::Bl(_) => self.jump_linked(p, f, i, symbol_value(p.kinds(), key, 0, 0)),
            Jump::Bdnz(label) => self.count(p, f, i, *label),
            Jump::Blr => self.jump(p, lr),
            Jump::Bctr => self.jump(p, ctr),
            Jump::Bctrl => self.jump_linked(p, f, i, ctr),
            Jump::Trap => Asm::Undefined(Why::Trap),
        }
    }

    /// To a label where a bit is 1, or where it is not.
    fn branch(&mut self, p: &Executable, f: u32, i: u32, label: u32, wanted: bool, bit: u8) -> Asm
        requires { i < MOST_INSTRUCTIONS }
        ensures { Acts (branched p.now f i self.old label wanted (get Undef self.old.file (Bit bit))) result self.old self.new }
    {
        match self.file.get(Place::Bit(bit)) {
            Val::Int(n) => self.choose(p, f, i, label, (n == 1) == wanted),
            _ => Asm::Undefined(Why::Bit),
        }
    }

    fn run_table(&mut self, p: &Executable, f: u32, labels: &[u32], r: u8) -> Asm
        ensures { Acts (tabled p.now f self.old labels.now (get Undef self.old.file (Gpr r))) result self.old self.new }
    {
        match self.file.get(Place::Gpr(r)) {
            Val::Int(n) => {
                let n = n as usize;
                if n < labels.len() {
                    self.place = Val::Code(f, p.place_of_label(f, labels[n]));
                    self.file.put(Place::Gpr(12), Val::Undef);
                    self.file.put(Place::Ctr, Val::Undef);
                    Asm::Went
                } else {
                    Asm::Undefined(Why::Table)
                }
            }
            _ => Asm::Undefined(Why::Table),
        }
    }

    // ---- frames

    #[tactic(auto, using(crate::proofs::Framing::pushed_block))]
    fn alloc_frame(&mut self, f: u32, i: u32, n: u32) -> Result<Asm, AllocError>
        requires next { self.old.next < MOST_BLOCKS }
        requires place { i < MOST_INSTRUCTIONS }
        ensures made { IfOk result (λ a. Acts (Went (pushed f i self.old n)) a self.old self.new) }
        ensures failed { OnErr result (self.new ≡ self.old) }
    {
        let k = self.blocks.alloc_block(n, true)?;
        let old = self.file.get(Place::Gpr(1));
        self.blocks.write(k, 0, old);
        self.file.put(Place::Gpr(0), Val::Undef);
        self.file.put(Place::Gpr(12), Val::Undef);
        self.file.put(Place::Gpr(1), Val::Ptr(k, 0));
        Ok(self.go_on(f, i))
    }

    fn has_size(&self, k: u32, n: u32) -> bool
        ensures { result ≡ has_size (room self.now.live k) n }
    {
        match self.blocks.room(k) {
            Some((size, _)) => size == n,
            None => false,
        }
    }

    fn holds(&self, k: u32, v: Val) -> bool
        ensures { result ≡ holds (load self.now.live 4 (Ptr k 0)) v }
    {
        match self.blocks.load(4, Val::Ptr(k, 0)) {
            Some(u) => u == v,
            None => false,
        }
    }

    /// Frees the frame with the number `k`, over that with the number `j`.
    fn free_over(&mut self, p: &Executable, f: u32, i: u32, n: u32, k: u32, j: u32) -> Asm
        requires place { i < MOST_INSTRUCTIONS }
        requires some { IsSome (newest self.old.live 0) }
        ensures { Acts (popped_by p.now f i self.old n self.old.live (Some k) (Some j)) result self.old self.new }
    {
        if j >= p.variables() && self.has_size(k, n) && self.holds(k, Val::Ptr(j, 0)) {
            self.blocks.free_top();
            self.put_on(f, i, Place::Gpr(1), Val::Ptr(j, 0))
        } else {
            Asm::Undefined(Why::Frame)
        }
    }

    #[tactic(auto, using(crate::proofs::Framing::popped_newest))]
    fn free_frame(&mut self, p: &Executable, f: u32, i: u32, n: u32) -> Asm
        requires { i < MOST_INSTRUCTIONS }
        ensures { Acts (popped p.now f i self.old n self.old.live) result self.old self.new }
    {
        match self.blocks.newest(0) {
            Some(k) => match self.blocks.newest(1) {
                Some(j) => self.free_over(p, f, i, n, k, j),
                None => Asm::Undefined(Why::Frame),
            },
            None => Asm::Undefined(Why::Frame),
        }
    }

    // ---- instructions

    fn run_jump_of(&mut self, p: &Executable, f: u32, i: u32, key: u32, x: &Plain) -> Asm
        requires { i < MOST_INSTRUCTIONS }
        ensures { Acts (jumps_by p.now f i self.old key x.now) result self.old self.new }
    {
        match x {
            Plain::Jump(j) => self.run_jump(p, f, i, key, j),
            _ => Asm::Undefined(Why::End),
        }
    }

    /// What a plain instruction does, where `key` is the key of its symbol.
    fn perform(
        &mut self,
        p: &Executable,
        f: u32,
        i: u32,
        key: u32,
        x: &Plain,
        action: &Action,
    ) -> Asm
        requires { i < MOST_INSTRUCTIONS }
        ensures { Acts (performed p.now f i self.old key x.now action.now) result self.old self.new }
    {
        match action {
            Action::Work(effects) => {
                self.file.work(p.kinds(), &self.blocks, effects);
                self.go_on(f, i)
            }
            Action::Divide(e) => self.perform_divide(p, f, i, e),
            Action::Load(form, x, y, to) => {
                let at = self.address(p, *x, *y);
                self.perform_load(f, i, *form, at, *to)
            }
            Action::Store(form, from, x, y, _) => {
                let at = self.address(p, *x, *y);
                let v = self.file.get(*from);
                self.perform_store(f, i, *form, at, v)
            }
            Action::MoveFromCr(_) => Asm::Undefined(Why::End),
            Action::Jump => self.run_jump_of(p, f, i, key, x),
        }
    }

    /// The lowest bit of what a bit of the condition register holds.
    fn bit_value(&self, bit: u8) -> Val
        ensures { result ≡ changed (λ n. n % 2) (get Undef self.now.file (Bit bit)) }
    {
        match self.file.get(Place::Bit(bit)) {
            Val::Int(n) => Val::Int(n % 2),
            _ => Val::Undef,
        }
    }

    /// Only a frame that is made takes memory.
    fn run(
        &mut self,
        p: &Executable,
        f: u32,
        i: u32,
        key: u32,
        x: &Instr,
    ) -> Result<Asm, AllocError>
        requires next { self.old.next < MOST_BLOCKS }
        requires place { i < MOST_INSTRUCTIONS }
        requires field { FitsInstr x.now }
        ensures done { IfOk result (λ a. Acts (act p.now f i self.old key x.now) a self.old self.new) }
        ensures failed { OnErr result ((makes_frame (Some x.now) ≡ true) × (self.new ≡ self.old)) }
    {
        match x {
            Instr::Plain(x) => Ok(self.perform(p, f, i, key, x, &action(x, key))),
            Instr::AllocFrame(n) => self.alloc_frame(f, i, *n),
            Instr::FreeFrame(n) => Ok(self.free_frame(p, f, i, *n)),
            Instr::Imm(r, n) => Ok(self.put_on(f, i, Place::Gpr(r.number()), Val::Int(*n))),
            Instr::Bt(bit, label) => Ok(self.branch(p, f, i, *label, true, *bit)),
            Instr::Bf(bit, label) => Ok(self.branch(p, f, i, *label, false, *bit)),
            Instr::Btbl(r, labels) => Ok(self.run_table(p, f, labels.items(), r.number())),
            Instr::MfcrBit(r, bit) => {
                let v = self.bit_value(*bit);
                Ok(self.put_on(f, i, Place::Gpr(r.number()), v))
            }
            Instr::Label(_) | Instr::Cfi | Instr::Annot => Ok(self.go_on(f, i)),
        }
    }

    /// The instruction at a place.
    fn run_at(&mut self, p: &Executable, f: u32, i: u32) -> Result<Asm, AllocError>
        requires { self.old.next < MOST_BLOCKS }
        ensures done { IfOk result (λ a. Acts (at_code p.now f i self.old (instruction p.now f i)) a self.old self.new) }
        ensures failed { OnErr result ((makes_frame (instruction p.now f i) ≡ true) × (self.new ≡ self.old)) }
    {
        match p.instruction(f, i) {
            Some(x) => self.run(p, f, i, p.key_at(f, i), x),
            None => Ok(Asm::Undefined(Why::End)),
        }
    }

    fn end(&self) -> Asm
        ensures { Acts (finish (get Undef self.now.file (Gpr 3))) result self.now self.now }
    {
        match self.file.get(Place::Gpr(3)) {
            Val::Int(n) => Asm::Ended(n),
            _ => Asm::Undefined(Why::Final),
        }
    }

    // ---- calls of external functions

    /// What a call with a reply does.
    fn answer(&mut self, key: u32, c: &Callee, r: &Reply, bytes: &mut CallBytes) -> Asm
        requires fits { list_all (buffer_fits self.old.live self.old.file c.now) c.now.buffers ≡ true }
        requires none { bytes.old ≡ [] }
        ensures answer { Answers (answered key self.old c.now (Some r.now)) result self.old self.new }
        ensures read { Shows result (answered key self.old c.now (Some r.now)) bytes.new }
    {
        let sig = c.sig();
        let event = event(key, &self.file, c.arguments().words());
        read_all(&self.blocks, &self.file, c, sig.buffers.items(), bytes);
        let back = self.file.get(Place::Lr);
        fill_all(
            &mut self.blocks,
            &self.file,
            c,
            sig.buffers.items(),
            r.fills.items(),
        );
        self.blocks.forget();
        give_results(&mut self.file, sig.result, r);
        self.place = back;
        Asm::Called(event)
    }

    fn has_arguments(&self, c: &Callee) -> bool
        ensures { result ≡ list_all (is_argument self.now.live) (arguments Undef self.now.file c.now) }
    {
        are_arguments(&self.blocks, &self.file, c.arguments().words())
    }

    fn has_buffers(&self, c: &Callee) -> bool
        ensures { result ≡ list_all (buffer_fits self.now.live self.now.file c.now) c.now.buffers }
    {
        buffers_fit(&self.blocks, &self.file, c, c.sig().buffers.items())
    }

    /// The tests of a call in their order, and then the call.
    fn call(
        &mut self,
        p: &Executable,
        key: u32,
        c: &Callee,
        reply: Option<&Reply>,
        bytes: &mut CallBytes,
    ) -> Asm
        requires { bytes.old ≡ [] }
        ensures answer { Answers (called_sig p.now key self.old (option_copied reply.entry) c.now) result self.old self.new }
        ensures read { Shows result (called_sig p.now key self.old (option_copied reply.entry) c.now) bytes.new }
    {
        if !self.has_arguments(c) {
            return Asm::Undefined(Why::Argument);
        }
        if !p.is_target(self.file.get(Place::Lr)) {
            return Asm::Undefined(Why::Target);
        }
        if !self.has_buffers(c) {
            return Asm::Undefined(Why::Buffer);
        }
        match reply {
            Some(r) => self.answer(key, c, r, bytes),
            None => Asm::Starved,
        }
    }

    /// One step. Only a frame that is made takes memory, and where it is wanting the state is as before.
    #[tactic(auto, using(crate::proofs::Quiet::quiet), unfolding(crate::specs::Steps::asm_step))]
    pub fn step(
        &mut self,
        p: &Executable,
        reply: Option<&Reply>,
        bytes: &mut CallBytes,
    ) -> Result<Asm, AllocError>
        requires next { self.old.next < MOST_BLOCKS }
        requires none { bytes.old ≡ [] }
        ensures done { IfOk result (λ a. Answers (asm_step p.now self.old (option_copied reply.entry)) a self.old self.new) }
        ensures read { IfOk result (λ a. Shows a (asm_step p.now self.old (option_copied reply.entry)) bytes.new) }
        ensures failed { OnErr result ((frame_comes p.now self.old.place ≡ true) × (self.new ≡ self.old) × (bytes.new ≡ [])) }
    {
        match self.place {
            Val::Code(f, i) => self.run_at(p, f, i),
            Val::Ext(key, _) => match p.callee(key) {
                Some(c) => Ok(self.call(p, key, c, reply, bytes)),
                None => Ok(Asm::Undefined(Why::Target)),
            },
            Val::Stop => Ok(self.end()),
            _ => Ok(Asm::Undefined(Why::Target)),
        }
    }

    // ---- what the machine counts

    /// How many blocks were made.
    pub fn made(&self) -> u32
        ensures { result ≡ self.now.next }
    {
        self.blocks.made()
    }

    /// How many cells the live blocks have together.
    pub fn cells(&self) -> u64
        ensures { result ≡ total self.now.live }
    {
        self.blocks.cells()
    }

    /// How many cells a live block and all older ones have together.
    pub fn cells_from(&self, block: u32) -> Option<u64>
        ensures { result ≡ total_from block self.now.live }
    {
        self.blocks.cells_from(block)
    }
}
