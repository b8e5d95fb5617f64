// Steps of the machine, over an image of code, data and constants.
use crate::tables::{calls, faults, file_words, jumps, left, steps, stores};
use asm_syntax::unit::{
    Buffer, BufferList, ByteList, FillList, Reply, Sig, Size, Width, WidthList,
};
use byteorder::{BigEndian, ByteOrder};
use call_bytes::bytes::CallBytes;
use effect_model::{Form, Place};
use elf_view::ElfView;
use flat_mem::memory::{FaultKind, FlatMem};
use layout_file::layout::Layout;
use layout_file::read_layout;
use ppc_machine::cpu::{Cpu, Flat, Junk};
use ppc_machine::externals::ExtTable;
use std::alloc::{AllocError, Global};
use std::test::Fail;

const SIZE: usize = 272;

const BLR: u32 = 0x4e80_0020;

const LAYOUT: &str = r#"{"valex":"layout","version":1,"entry":"main","stop":"0x10000000",
"stack":["0x20000000","0x20000020"],"r13":1,"r2":2,"areas":[],"foreign":[],"pins":[]}"#;

const CODE: u32 = 0x1001_0000;

const DATA: u32 = 0x1001_8000;

const STACK: u32 = 0x2000_0000;

// Where the external function of the table is.
const EXTERNAL: u32 = 0x1002_0000;

fn put(file: &mut [u8], at: usize, word: u32) {
    if at < 1000 && at + 4 <= file.len() {
        BigEndian::write_u32(&mut file[at..], word);
    }
}

// The file, with these words as its first instructions.
fn file_with(alloc: Global, word: u32, next: u32) -> Result<Vec<u8>, AllocError> {
    let mut file = Vec::new(alloc);
    file.resize(SIZE, 0)?;
    for (at, word) in file_words() {
        put(&mut file, usize::from(*at), *word);
    }
    put(&mut file, 228, word);
    put(&mut file, 232, next);
    Ok(file)
}

fn junk(ctr: u32, xer: u32) -> Junk {
    let mut regs = [0xa5a5_a5a5; 32];
    regs[0] = 16;
    regs[4] = 0xffff_ffff;
    regs[5] = 7;
    regs[6] = 0x8000_0000;
    regs[7] = 0x1234_5678;
    regs[8] = 40;
    regs[9] = DATA;
    regs[10] = 4;
    regs[11] = 0;
    regs[12] = 0xffff_fff9;
    Junk {
        regs,
        cr: 0x0f0f_0f0f,
        ctr,
        xer,
    }
}

fn junk_with(r3: u32, r4: u32) -> Junk {
    let mut junk = junk(0, 0);
    junk.regs[3] = r3;
    junk.regs[4] = r4;
    junk
}

// Whether it is a call of the external 7, with so many words.
fn is_call(flat: &Flat, count: u8, words: &[u32]) -> bool {
    match flat {
        Flat::Called(event) => {
            event.number == 7 && event.count == count && event.words.as_slice() == words
        }
        _ => false,
    }
}

fn is_fault(flat: &Flat, kind: FaultKind) -> bool {
    match flat {
        Flat::Faulted(found) => *found == kind,
        _ => false,
    }
}

// The external of the table, number 7, and the fill of its reply where one is left.
#[derive(Clone, Copy, Drop)]
struct Callee<'a> {
    args: &'a [Width],
    buffers: &'a [Buffer],
    fill: Option<&'a [u8]>,
}

fn no_callee() -> Callee<'static> {
    Callee {
        args: &[],
        buffers: &[],
        fill: None,
    }
}

fn table_of(alloc: Global, callee: &Callee) -> Result<ExtTable, Fail> {
    let sig = Sig {
        args: WidthList::from_vec(Vec::from_slice(alloc, callee.args)?),
        result: None,
        buffers: BufferList::from_vec(Vec::from_slice(alloc, callee.buffers)?),
    };
    let mut table = ExtTable::new(alloc);
    if asm_shapes::valid_sig(&sig).is_err() {
        return Err("a signature".into());
    }
    table.add(EXTERNAL, 7, &sig)?;
    Ok(table)
}

fn reply_of(alloc: Global, fill: &[u8]) -> Result<Reply, AllocError> {
    let mut fills = FillList::new(alloc);
    fills.push(ByteList::from_vec(Vec::from_slice(alloc, fill)?))?;
    Ok(Reply {
        r0: 100,
        r3: 103,
        r4: 104,
        r5: 105,
        r6: 106,
        r7: 107,
        r8: 108,
        r9: 109,
        r10: 110,
        r11: 111,
        r12: 112,
        cr: 0xa5a5_a5a5,
        ctr: 113,
        lr: 114,
        xer: 0xa000_0000,
        fills,
    })
}

// Tests read the answers of a machine, and know nothing of them before.
#[derive(Drop)]
struct Machine<'a> {
    cpu: Cpu,
    mem: FlatMem<'a>,
}

fn memory<'a>(alloc: Global, file: &'a [u8], layout: &Layout) -> Result<FlatMem<'a>, Fail> {
    let Ok(view) = ElfView::read(file) else {
        return Err("an image".into());
    };
    let stack = layout.stack();
    if stack.hi != stack.lo + 32 {
        return Err("a stack of 32 bytes".into());
    }
    Ok(FlatMem::build(alloc, &view, &stack, &[0xa5; 32])?)
}

fn start<'a>(alloc: Global, file: &'a [u8], entry: u32, junk: &Junk) -> Result<Machine<'a>, Fail> {
    let Ok(layout) = read_layout(alloc, LAYOUT.as_bytes()) else {
        return Err("a layout".into());
    };
    let mut mem = memory(alloc, file, &layout)?;
    let cpu = Cpu::start(entry, &layout, junk, &mut mem);
    Ok(Machine { cpu, mem })
}

fn step(
    alloc: Global,
    machine: &mut Machine,
    callee: &Callee,
    bytes: &mut CallBytes,
) -> Result<Flat, Fail> {
    let table = table_of(alloc, callee)?;
    let Machine { cpu, mem } = machine;
    let Some(fill) = callee.fill else {
        return Ok(cpu.step(mem, &table, None, bytes));
    };
    let reply = reply_of(alloc, fill)?;
    Ok(cpu.step(mem, &table, Some(&reply), bytes))
}

fn register(machine: &Machine, place: Place) -> u32 {
    machine.cpu.registers().get(place)
}

fn condition(machine: &Machine) -> u32 {
    machine.cpu.registers().condition()
}

fn word_at(machine: &Machine, at: u32) -> Option<u32> {
    machine.mem.load(Form::Word, at)
}

// The bytes of the first buffer that the step read.
fn first_read(bytes: &CallBytes) -> &[u8] {
    if bytes.count() > 0 {
        bytes.bytes(0)
    } else {
        &[]
    }
}

#[test]
fn each_class_steps_as_qemu_does(rt: HostRuntime) -> Result<(), Fail> {
    let mut bytes = CallBytes::new(rt.alloc())?;
    for (text, word, carry_in, r3, cr, carry) in steps() {
        let file = file_with(rt.alloc(), *word, BLR)?;
        let junk = junk(0x00c0_ffee, 0x8000_0000 | (*carry_in << 29));
        let mut machine = start(rt.alloc(), &file, CODE, &junk)?;
        let flat = step(rt.alloc(), &mut machine, &no_callee(), &mut bytes)?;
        assert!(rt; matches!(flat, Flat::Went), "{text}");
        assert_eq!(rt; register(&machine, Place::Gpr(3)), *r3, "{text}");
        assert_eq!(rt; condition(&machine), *cr, "{text}");
        assert_eq!(rt; register(&machine, Place::Ca), *carry, "{text}");
        assert_eq!(rt; machine.cpu.pc(), CODE + 4, "{text}");
    }
    Ok(())
}

#[test]
fn stores_write_as_in_qemu(rt: HostRuntime) -> Result<(), Fail> {
    let mut bytes = CallBytes::new(rt.alloc())?;
    for (text, word, place, written, base) in stores() {
        let file = file_with(rt.alloc(), *word, BLR)?;
        let mut machine = start(rt.alloc(), &file, CODE, &junk(0, 0))?;
        let flat = step(rt.alloc(), &mut machine, &no_callee(), &mut bytes)?;
        assert!(rt; matches!(flat, Flat::Went), "{text}");
        assert_eq!(rt; word_at(&machine, *place), Some(*written), "{text}");
        assert_eq!(rt; register(&machine, Place::Gpr(9)), *base, "{text}");
    }
    Ok(())
}

#[test]
fn jumps_lead_there(rt: HostRuntime) -> Result<(), Fail> {
    let mut bytes = CallBytes::new(rt.alloc())?;
    for (text, word, count, pc, link, counted) in jumps() {
        let file = file_with(rt.alloc(), *word, BLR)?;
        let mut machine = start(rt.alloc(), &file, CODE, &junk(*count, 0))?;
        let flat = step(rt.alloc(), &mut machine, &no_callee(), &mut bytes)?;
        assert!(rt; matches!(flat, Flat::Went), "{text}");
        assert_eq!(rt; machine.cpu.pc(), *pc, "{text}");
        assert_eq!(rt; register(&machine, Place::Lr), *link, "{text}");
        assert_eq!(rt; register(&machine, Place::Ctr), *counted, "{text}");
    }
    Ok(())
}

#[test]
fn faults_come_in_their_order(rt: HostRuntime) -> Result<(), Fail> {
    let mut bytes = CallBytes::new(rt.alloc())?;
    for (text, entry, word, kind) in faults() {
        let file = file_with(rt.alloc(), *word, BLR)?;
        let mut machine = start(rt.alloc(), &file, *entry, &junk(0, 0))?;
        let flat = step(rt.alloc(), &mut machine, &no_callee(), &mut bytes)?;
        assert!(rt; is_fault(&flat, *kind), "{text}");
        assert_eq!(rt; machine.cpu.pc(), *entry, "{text}");
    }
    Ok(())
}

#[test]
fn buffers_are_tested_read_and_filled(rt: HostRuntime) -> Result<(), Fail> {
    let mut bytes = CallBytes::new(rt.alloc())?;
    let file = file_with(rt.alloc(), 0, BLR)?;
    for (fills, size, r3, r4, fill, fault, read, last) in calls() {
        let callee = Callee {
            args: &[Width::Word, Width::Word],
            buffers: &[Buffer {
                fills: *fills,
                arg: 0,
                size: *size,
            }],
            fill: *fill,
        };
        let junk = junk_with(*r3, *r4);
        let mut machine = start(rt.alloc(), &file, EXTERNAL, &junk)?;
        let flat = step(rt.alloc(), &mut machine, &callee, &mut bytes)?;
        let answers = match fault {
            Some(kind) => is_fault(&flat, *kind),
            None if fill.is_none() => matches!(flat, Flat::Starved),
            None => is_call(&flat, 2, &[*r3, *r4, 0, 0, 0, 0, 0, 0]),
        };
        assert!(rt; answers, "{r3} {r4}");
        assert_eq!(rt; first_read(&bytes), *read, "{r3} {r4}");
        assert_eq!(rt; word_at(&machine, DATA + 12), Some(*last), "{r3} {r4}");
    }
    Ok(())
}

// The machine behind three steps, and what the third told.
fn calls_in_three_steps<'a>(
    alloc: Global,
    file: &'a [u8],
    callee: &Callee,
) -> Result<(Machine<'a>, Flat), Fail> {
    let mut bytes = CallBytes::new(alloc)?;
    let mut machine = start(alloc, file, CODE, &junk(0, 0))?;
    for _ in 0..2 {
        let _ = step(alloc, &mut machine, callee, &mut bytes)?;
    }
    let flat = step(alloc, &mut machine, callee, &mut bytes)?;
    Ok((machine, flat))
}

fn is_left(machine: &Machine) -> bool {
    left()
        .iter()
        .all(|(place, word)| register(machine, *place) == *word)
}

// mtlr 4, b to the external, and its call
#[test]
fn a_call_changes_what_the_standard_lets_it(rt: HostRuntime) -> Result<(), Fail> {
    let file = file_with(rt.alloc(), 0x7c88_03a6, 0x4800_fffc)?;
    let callee = Callee {
        args: &[Width::Word, Width::Long],
        buffers: &[],
        fill: Some(&[]),
    };
    let (machine, flat) = calls_in_three_steps(rt.alloc(), &file, &callee)?;
    assert!(rt; is_call(&flat, 3, &[0xa5a5_a5a5, 7, 0x8000_0000, 0, 0, 0, 0, 0]));
    assert_eq!(rt; machine.cpu.pc(), 0xffff_fffc);
    assert_eq!(rt; condition(&machine), 0xa50f_05a5);
    assert!(rt; is_left(&machine));
    Ok(())
}

#[test]
fn the_stop_point_ends_it(rt: HostRuntime) -> Result<(), Fail> {
    let mut bytes = CallBytes::new(rt.alloc())?;
    let file = file_with(rt.alloc(), BLR, BLR)?;
    let mut machine = start(rt.alloc(), &file, 0x1000_0000, &junk(0, 0))?;
    assert_eq!(rt; word_at(&machine, STACK + 16), Some(0));
    let flat = step(rt.alloc(), &mut machine, &no_callee(), &mut bytes)?;
    assert!(rt; matches!(flat, Flat::Ended(0xa5a5_a5a5)));
    Ok(())
}
