//! A run of the assembly machine, told as a text.

ghost use Rattle.std.specs.Prelude.{◌≡◌};

use asm_machine::machine::AsmCpu;
use asm_mem::value::Val;
use asm_step::answer::{Asm, AsmEvent};
use asm_step::executable::Executable;
use asm_syntax::unit::Reply;
use call_bytes::bytes::CallBytes;
use limits::MOST_FRAMES;
use std::alloc::{AllocError, Global};

/// A machine beside the program that it was started over.
#[derive(Drop)]
pub struct Run<'u> {
    pub program: Executable<'u>,
    pub cpu: AsmCpu,
    ghost over: { program.variables ≡ cpu.variables },
}

impl<'u> Run<'u> {
    fn step(&mut self, reply: Option<&Reply>, bytes: &mut CallBytes) -> Asm {
        if self.cpu.made() < MOST_FRAMES {
            self.cpu.step(&self.program, reply, bytes)
        } else {
            Asm::Memory
        }
    }
}

fn value(alloc: Global, v: Val) -> Result<String, AllocError> {
    match v {
        Val::Int(n) => format!(in alloc; " {n:08x}"),
        _ => format!(in alloc; " {v:?}"),
    }
}

/// The buffers that a call read, in hexadecimal.
fn buffers(alloc: Global, bytes: &CallBytes) -> Result<String, AllocError> {
    let mut text = String::new(alloc);
    for i in 0..bytes.count() {
        text.push_str(" in:")?;
        for b in bytes.bytes(i) {
            text.push_str(format!(in alloc; "{b:02x}")?.as_str())?;
        }
    }
    Ok(text)
}

/// The key of a call, its values and what it read.
fn call(alloc: Global, e: &AsmEvent, bytes: &CallBytes) -> Result<String, AllocError> {
    let mut text = format!(in alloc; "call {}", e.number)?;
    for (i, v) in e.vals.iter().enumerate() {
        if i < usize::from(e.count) {
            text.push_str(value(alloc, *v)?.as_str())?;
        } else if *v != Val::Undef {
            text.push_str(" behind")?;
        }
    }
    text.push_str(buffers(alloc, bytes)?.as_str())?;
    text.push_str("; ")?;
    Ok(text)
}

/// How a run ends.
fn end(alloc: Global, answer: &Asm) -> Result<String, AllocError> {
    match answer {
        Asm::Went | Asm::Called(_) => String::from_str(alloc, "going"),
        Asm::Ended(n) => format!(in alloc; "ended {n:08x}"),
        Asm::Starved => String::from_str(alloc, "starved"),
        Asm::Undefined(why) => format!(in alloc; "undefined {why:?}"),
        Asm::Memory => String::from_str(alloc, "memory"),
    }
}

/// The calls of so many steps, each with the reply that it takes, and the end.
pub fn trace(
    alloc: Global,
    run: &mut Run,
    replies: &[Reply],
    steps: u32,
    bytes: &mut CallBytes,
) -> Result<String, AllocError> {
    let mut text = String::new(alloc);
    let mut left = replies.iter();
    let mut reply = left.next();
    let mut last = Asm::Went;
    for _ in 0..steps {
        last = run.step(reply, bytes);
        match &last {
            Asm::Went => {}
            Asm::Called(e) => {
                text.push_str(call(alloc, e, bytes)?.as_str())?;
                reply = left.next();
            }
            _ => break,
        }
    }
    text.push_str(end(alloc, &last)?.as_str())?;
    Ok(text)
}
