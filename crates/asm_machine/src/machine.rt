//! The machine: its first state, its steps, and where its blocks stand.

ghost use Rattle.std.specs.Prelude.{◌≡◌, ◌<◌, ◌≤◌, ◌+◌, ◌-◌, false, max, length, IfOk, Some, [], option_copied};
ghost use Rattle.limits.specs.declared.TheConstants.{MOST_BLOCKS, MOST_FRAMES};
ghost use Rattle.link_model.specs.Numbers.{entry_key};
ghost use Rattle.link_model.specs.Program.{keys};
ghost use Rattle.asm_step.specs.Answers.{Shows};
ghost use Rattle.asm_step.specs.Steps.{asm_step, frame_comes};
ghost use Rattle.asm_machine.specs.Cpus.{Hands, Stepped, first_cpu, goes_on};
ghost use Rattle.asm_machine.specs.Executables.{linked};
ghost use Rattle.asm_machine.specs.Stacks.{frame_cells, home};
ghost use Rattle.asm_machine.specs.Starts.{first_file};

use crate::variables::variable_blocks;
use asm_mem::value::Val;
use asm_step::answer::Asm;
use asm_step::executable::Executable;
use asm_step::machine::Machine;
use asm_syntax::unit::Reply;
use asm_values::operands::symbol_value;
use asm_values::registers::Registers;
use call_bytes::bytes::CallBytes;
use effect_model::Place;
use limits::LEAST_FRAME_BYTES;
use name_addresses::keys::KeyedProgram;
use std::alloc::{AllocError, Global};
use std::marker::Model;

/// What a live block is.
#[derive(Clone, Copy, Debug, PartialEq, Eq, Drop)]
pub enum Home {
    /// The number of a variable.
    Variable(u32),
    /// The bytes of the frames from the first above the root up to this one, 0 for the root.
    Frame(u64),
}

/// The assembly machine.
#[derive(Drop)]
pub struct AsmCpu {
    machine: Machine,
    variables: u32,
    /// The cells of the variables and of the root.
    base: u64,
    deepest: u64,
}

impl Model for AsmCpu {
    ghost use Rattle.asm_machine.specs.Cpus.{Cpu, IsCounted};

    ghost Value = { Cpu };

    ghost view = { λ c. record { state = c.machine; variables = c.variables; deepest = c.deepest } };

    ghost invariant = { λ c. IsCounted c.machine c.variables c.base c.deepest };
}

fn first_file(root: u32) -> Registers
    ensures { result ≡ first_file root }
{
    let mut file = Registers::new();
    file.put(Place::Gpr(1), Val::Ptr(root, 0));
    file.put(Place::Lr, Val::Stop);
    file
}

/// One step of the machine itself.
#[tactic(auto, using(crate::proofs::Stepping::stepped))]
fn advance(
    machine: &mut Machine,
    p: &Executable,
    reply: Option<&Reply>,
    bytes: &mut CallBytes,
) -> Asm
    requires next { machine.old.next < MOST_BLOCKS }
    requires none { bytes.old ≡ [] }
    ensures answer { Stepped (asm_step p.now machine.old (option_copied reply.entry)) (frame_comes p.now machine.old.place) result
        machine.old machine.new }
    ensures read { Shows result (asm_step p.now machine.old (option_copied reply.entry)) bytes.new }
{
    match machine.step(p, reply, bytes) {
        Ok(answer) => answer,
        Err(_) => Asm::Memory,
    }
}

impl AsmCpu {
    /// The first state over a program: a block for each variable with its first bytes, the root, and the entry's first instruction.
    /// `entry` is the key of the entry, and `e` what `executable` makes of the program.
    pub fn start<P: KeyedProgram>(
        alloc: Global,
        p: &P,
        e: &Executable,
        entry: u32,
    ) -> Result<AsmCpu, AllocError>
        requires code { e.now ≡ linked (P.program p.now) }
        requires entry { entry_key (P.program p.now).units (P.program p.now).entry ≡ Some entry }
        ensures { IfOk result (λ c. c ≡ first_cpu (P.program p.now)) }
    {
        let mut blocks = variable_blocks(alloc, p, e.kinds())?;
        let variables = blocks.made();
        let root = blocks.alloc_block(LEAST_FRAME_BYTES, true)?;
        let base = blocks.cells();
        let place = symbol_value(e.kinds(), entry, 0, 0);
        Ok(AsmCpu {
            machine: Machine::new(first_file(root), blocks, place),
            variables,
            base,
            deepest: 0,
        })
    }

    /// What the live block with this number is. None where no live block has it.
    #[tactic(auto, using(crate::proofs::Stacking::home_none))]
    pub fn home(&self, block: u32) -> Option<Home>
        ensures { result ≡ home self.now.variables block self.now.state.live }
    {
        match self.machine.cells_from(block) {
            Some(cells) => {
                if block < self.variables {
                    Some(Home::Variable(block))
                } else {
                    Some(Home::Frame(cells.saturating_sub(self.base)))
                }
            }
            None => None,
        }
    }

    /// How many frames were made so far.
    pub fn made(&self) -> u32
        ensures { result ≡ self.now.state.next - (self.now.variables + 1) }
    {
        self.machine.made().saturating_sub(self.variables + 1)
    }

    /// The most bytes that the frames have had together, without the root.
    pub fn deepest(&self) -> u64
        ensures { result ≡ self.now.deepest }
    {
        self.deepest
    }

    /// One step over the program that the machine was started with. `bytes` has the buffers that a call reads, and is empty after
    /// every other answer.
    pub fn step(&mut self, p: &Executable, reply: Option<&Reply>, bytes: &mut CallBytes) -> Asm
        requires program { p.now.variables ≡ self.old.variables }
        requires frames { self.old.state.next - (self.old.variables + 1) < MOST_FRAMES }
        ensures answer { Stepped (asm_step p.now self.old.state (option_copied reply.entry)) (frame_comes p.now self.old.state.place)
            result self.old.state self.new.state }
        ensures read { Shows result (asm_step p.now self.old.state (option_copied reply.entry)) bytes.new }
        ensures deepest { self.new.deepest ≡ max self.old.deepest (frame_cells self.old.variables self.new.state.live) }
        ensures variables { self.new.variables ≡ self.old.variables }
        ensures grows { self.new.state.next ≤ self.old.state.next + 1 }
        ensures hands { Hands self.old.variables self.old.state (asm_step p.now self.old.state (option_copied reply.entry)) }
        ensures unchanged { goes_on result ≡ false → self.new ≡ self.old }
    {
        bytes.clear();
        let answer = advance(&mut self.machine, p, reply, bytes);
        let frames = self.machine.cells().saturating_sub(self.base);
        self.deepest = self.deepest.max(frames);
        answer
    }
}
