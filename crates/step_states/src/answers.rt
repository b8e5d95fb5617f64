//! What the machine holds after some steps.

use crate::image::{bytes_of, file_of};
use crate::states::{MEMORY_WORDS, State};
use call_bytes::bytes::CallBytes;
use effect_model::{Form, Place};
use elf_view::ElfView;
use flat_mem::memory::FlatMem;
use layout_file::layout::Layout;
use ppc_machine::cpu::{Cpu, Flat};
use ppc_machine::externals::ExtTable;
use std::alloc::{AllocError, Global};
use word_ops::range::Range;

/// Where the memory of a state is.
const MEMORY: u32 = 0x7000;

const BYTES: usize = MEMORY_WORDS * 4;

fn memory<'a>(
    alloc: Global,
    view: &ElfView<'a>,
    words: &[u32],
) -> Result<Option<FlatMem<'a>>, AllocError> {
    let bytes = bytes_of(alloc, words)?;
    if bytes.len() != BYTES {
        return Ok(None);
    }
    let lo = u64::from(MEMORY);
    let hi = lo + bytes.len() as u64;
    let range = Range { lo, hi };
    Ok(Some(FlatMem::build(alloc, view, &range, bytes.as_slice())?))
}

fn run(
    alloc: Global,
    cpu: &mut Cpu,
    mem: &mut FlatMem,
    bytes: &mut CallBytes,
    steps: u32,
) -> Option<u32> {
    let table = ExtTable::new(alloc);
    for _ in 0..steps {
        match cpu.step(mem, &table, None, bytes) {
            Flat::Went => (),
            Flat::Faulted(kind) => return Some(kind.number()),
            _ => return Some(0),
        }
    }
    None
}

fn registers(alloc: Global, cpu: &Cpu) -> Result<Vec<u32>, AllocError> {
    let file = cpu.registers();
    let mut words = Vec::new(alloc);
    words.push(cpu.pc())?;
    for i in 0..32u8 {
        words.push(file.get(Place::Gpr(i)))?;
    }
    words.push(file.condition())?;
    words.push(file.get(Place::Ctr))?;
    words.push(file.get(Place::Lr))?;
    words.push(file.get(Place::Ca))?;
    words.push(file.get(Place::So))?;
    Ok(words)
}

fn add_memory(words: &mut Vec<u32>, mem: &FlatMem) -> Result<(), AllocError> {
    let mut at = MEMORY;
    for _ in 0..MEMORY_WORDS {
        words.push(mem.load(Form::Word, at).unwrap_or(0))?;
        at = at.wrapping_add(4);
    }
    Ok(())
}

fn text_of(alloc: Global, words: &[u32]) -> Result<String, AllocError> {
    let mut text = String::new(alloc);
    for word in words {
        let part = format!(in alloc; "{word:08x} ")?;
        text.push_str(part.as_str())?;
    }
    String::from_str(alloc, text.as_str().trim())
}

/// The line for a state.
pub fn answer(
    alloc: Global,
    state: &State,
    layout: &Layout,
    bytes: &mut CallBytes,
) -> Result<String, AllocError> {
    let file = file_of(alloc, state.entry, state.code)?;
    let Ok(view) = ElfView::read(file.as_slice()) else {
        return String::from_str(alloc, "no image");
    };
    let Some(mut mem) = memory(alloc, &view, state.memory)? else {
        return String::from_str(alloc, "no memory");
    };
    let mut cpu = Cpu::start(state.entry, layout, &state.junk, &mut mem);
    if let Some(fault) = run(alloc, &mut cpu, &mut mem, bytes, state.steps) {
        return format!(in alloc; "fault {fault}");
    }
    let mut words = registers(alloc, &cpu)?;
    add_memory(&mut words, &mem)?;
    text_of(alloc, words.as_slice())
}
