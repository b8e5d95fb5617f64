//! The arguments and the buffers of a call.

ghost use Rattle.std.specs.Prelude.{◌≡◌, ◌≤◌, ◌<◌, ◌+◌, Some, ◌++◌, ◌∷◌, ◌==◌, if◌then◌else◌, ℕ, true, false, Bool, [], map, take, length};
ghost use Rattle.std.specs.Prelude.{find, slice_index_or, unwrap_or};
ghost use Rattle.std.specs.List.{list_all};
ghost use Rattle.std.specs.Option.{option_map_or};
ghost use Rattle.effect_model.specs.declared.Place.TheVariants.{Gpr};
ghost use Rattle.effect_model.specs.Calls.{put_each, volatile};
ghost use Rattle.effect_model.specs.Files.{get};
ghost use Rattle.call_bytes.specs.Calls.{held, register_at, size_of};
ghost use Rattle.asm_mem.specs.declared.value.Val.TheVariants.{Int, Undef};
ghost use Rattle.asm_mem.specs.declared.cell.Cell.TheVariants.{Byte};
ghost use Rattle.asm_mem.specs.Blocks.{byte_at, has, set_cells, update, with_byte};
ghost use Rattle.asm_step.specs.Calls.{buffer_at, buffer_fits, buffer_size, fill_at, filled, fits_size, has_room, is_argument, is_room};
ghost use Rattle.asm_step.specs.Calls.{read_at, reads, result_value};
ghost use Rattle.asm_step.specs.Answers.{event_of};
ghost use Rattle.asm_step.specs.Bytes.{are_bytes_at, bytes_at, is_short, read_one};

use crate::answer::AsmEvent;
use crate::executable::Callee;
use asm_mem::blocks::Blocks;
use asm_mem::value::Val;
use asm_syntax::unit::{Buffer, ByteList, Reply, Size, Width};
use asm_values::registers::Registers;
use call_bytes::bytes::CallBytes;
use effect_model::Place;
use effect_ops::calls::volatile;
use limits::{MOST_BUFFER_BYTES, MOST_BUFFERS};

fn is_argument(blocks: &Blocks, v: Val) -> bool
    ensures { result ≡ is_argument blocks.now.live v }
{
    match v {
        Val::Int(_) | Val::Ext(_, _) => true,
        Val::Ptr(b, _) => blocks.is_live(b),
        Val::Code(_, i) => i == 0,
        _ => false,
    }
}

/// Whether each of these registers holds a value that may be handed over.
pub fn are_arguments(blocks: &Blocks, file: &Registers, registers: &[u8]) -> bool
    ensures { result ≡ list_all (λ r. is_argument blocks.now.live (get Undef file.now (Gpr r))) registers.now }
{
    registers
        .iter()
        .all(|r| is_argument(blocks, file.get(Place::Gpr(*r))))
}

// ---- where buffers are

/// The first register of an argument, by the argument's place.
#[tactic(auto, using(crate::proofs::Reading::absent_register))]
fn register_at(c: &Callee, place: u8) -> u8
    ensures { result ≡ register_at c.now place }
{
    match c.arguments().first(place) {
        Some(r) => r,
        None => 3,
    }
}

fn argument(file: &Registers, c: &Callee, place: u8) -> Val
    ensures { result ≡ get Undef file.now (Gpr (register_at c.now place)) }
{
    file.get(Place::Gpr(register_at(c, place)))
}

fn buffer_size(file: &Registers, c: &Callee, size: Size) -> Val
    ensures { result ≡ size_of Undef Int file.now c.now size }
{
    match size {
        Size::Fixed(n) => Val::Int(n),
        Size::Arg(place) => argument(file, c, place),
    }
}

/// Whether so many cells from an offset on are bytes.
#[tactic(auto, using(crate::proofs::Reading::next_byte))]
fn are_bytes(blocks: &Blocks, b: u32, o: u32, n: u32) -> bool
    ensures { result ≡ are_bytes_at blocks.now.live b o n }
{
    for i in 0..n {
        if blocks.byte_at(b, u64::from(o) + u64::from(i)).is_none() {
            return false;
        }
    }
    true
}

#[tactic(auto, using(crate::proofs::Reading::room_reads))]
fn has_room(blocks: &Blocks, fills: bool, n: u32, b: u32, o: u32) -> bool
    ensures { result ≡ option_map_or (has_room fills n o) (find (has b) blocks.now.live) false }
{
    match blocks.room(b) {
        None => false,
        Some((size, writable)) => {
            if u64::from(o) + u64::from(n) > u64::from(size) {
                false
            } else if fills {
                writable
            } else {
                are_bytes(blocks, b, o, n)
            }
        }
    }
}

fn is_room(blocks: &Blocks, fills: bool, n: u32, v: Val) -> bool
    ensures { result ≡ is_room blocks.now.live fills n v }
{
    match v {
        Val::Ptr(b, o) => has_room(blocks, fills, n, b, o),
        _ => false,
    }
}

fn fits_size(blocks: &Blocks, fills: bool, at: Val, size: Val) -> bool
    ensures { result ≡ fits_size blocks.now.live fills at size }
{
    match size {
        Val::Int(n) => n <= MOST_BUFFER_BYTES && (n == 0 || is_room(blocks, fills, n, at)),
        _ => false,
    }
}

fn buffer_fits(blocks: &Blocks, file: &Registers, c: &Callee, b: &Buffer) -> bool
    ensures { result ≡ buffer_fits blocks.now.live file.now c.now b.now }
{
    fits_size(
        blocks,
        b.fills,
        argument(file, c, b.arg),
        buffer_size(file, c, b.size),
    )
}

pub fn buffers_fit(blocks: &Blocks, file: &Registers, c: &Callee, buffers: &[Buffer]) -> bool
    ensures { result ≡ list_all (buffer_fits blocks.now.live file.now c.now) buffers.now }
{
    buffers.iter().all(|b| buffer_fits(blocks, file, c, b))
}

// ---- reading

fn byte_or_zero(blocks: &Blocks, b: u32, at: u64) -> u8
    ensures { result ≡ unwrap_or (byte_at blocks.now.live b at) 0 }
{
    match blocks.byte_at(b, at) {
        Some(x) => x,
        None => 0,
    }
}

/// The bytes of a live block as one more list.
fn read_list(blocks: &Blocks, b: u32, o: u32, n: u32, bytes: &mut CallBytes)
    requires size { n ≤ MOST_BUFFER_BYTES }
    requires count { length bytes.old < MOST_BUFFERS }
    requires short { list_all is_short bytes.old ≡ true }
    ensures { bytes.new ≡ bytes.old ++ bytes_at blocks.now.live b o n ∷ [] }
{
    bytes.begin();
    for i in 0..n {
        bytes.put(byte_or_zero(blocks, b, u64::from(o) + u64::from(i)));
    }
}

#[tactic(auto, using(crate::proofs::Reading::live_reads, crate::proofs::Reading::dead_reads))]
fn read_value(blocks: &Blocks, at: Val, n: u32, bytes: &mut CallBytes)
    requires size { n ≤ MOST_BUFFER_BYTES }
    requires count { length bytes.old < MOST_BUFFERS }
    requires short { list_all is_short bytes.old ≡ true }
    ensures { bytes.new ≡ bytes.old ++ read_at blocks.now.live at (Int n) ∷ [] }
{
    match at {
        Val::Ptr(b, o) => {
            if blocks.is_live(b) {
                read_list(blocks, b, o, n, bytes);
            } else {
                bytes.begin();
            }
        }
        _ => bytes.begin(),
    }
}

/// The bytes of a buffer that is read, as one more list.
#[tactic(auto, using(crate::proofs::Reading::short_size))]
fn read_one(blocks: &Blocks, file: &Registers, c: &Callee, b: &Buffer, bytes: &mut CallBytes)
    requires fits { buffer_fits blocks.now.live file.now c.now b.now ≡ true }
    requires count { length bytes.old < MOST_BUFFERS }
    requires short { list_all is_short bytes.old ≡ true }
    ensures { bytes.new ≡ bytes.old ++ read_one blocks.now.live file.now c.now b.now }
{
    if b.fills {
        return;
    }
    let at = argument(file, c, b.arg);
    match buffer_size(file, c, b.size) {
        Val::Int(n) => read_value(blocks, at, n, bytes),
        _ => (),
    }
}

/// The bytes of all buffers that are read, in their order.
pub fn read_all(
    blocks: &Blocks,
    file: &Registers,
    c: &Callee,
    buffers: &[Buffer],
    bytes: &mut CallBytes,
)
    requires fits { list_all (buffer_fits blocks.now.live file.now c.now) buffers.now ≡ true }
    requires few { length buffers.now ≤ MOST_BUFFERS }
    requires none { bytes.old ≡ [] }
    ensures { bytes.new ≡ reads blocks.now.live file.now c.now buffers.now }
{
    for b in buffers {
        read_one(blocks, file, c, b, bytes);
    }
}

// ---- filling

#[tactic(auto, using(crate::proofs::Filling::take_all))]
fn fill_value(blocks: &mut Blocks, at: Val, size: Val, bytes: &[u8])
    ensures { blocks.new ≡ record blocks.old { live = fill_at blocks.old.live at size bytes.now } }
{
    match at {
        Val::Ptr(b, o) => match size {
            Val::Int(n) => {
                let n = n as usize;
                if n < bytes.len() {
                    blocks.set_bytes(b, o, &bytes[..n]);
                } else {
                    blocks.set_bytes(b, o, bytes);
                }
            }
            _ => (),
        },
        _ => (),
    }
}

/// The fill with this number; an absent one is empty.
fn fill_with(fills: &[ByteList], i: usize) -> &[u8]
    ensures { result.now ≡ slice_index_or fills.now i [] }
{
    if i < fills.len() {
        fills[i].items()
    } else {
        &[]
    }
}

/// Each buffer that is filled takes the next fill.
pub fn fill_all(
    blocks: &mut Blocks,
    file: &Registers,
    c: &Callee,
    buffers: &[Buffer],
    fills: &[ByteList],
)
    ensures { blocks.new ≡ record blocks.old { live = filled blocks.old.live file.now c.now buffers.now fills.now } }
{
    let mut used = 0;
    for b in buffers {
        if b.fills {
            let at = argument(file, c, b.arg);
            let size = buffer_size(file, c, b.size);
            fill_value(blocks, at, size, fill_with(fills, used));
            used += 1;
        }
    }
}

// ---- what a call leaves

fn result_value(width: Option<Width>, r: &Reply, p: Place) -> Val
    ensures { result ≡ result_value width r.now p }
{
    match p {
        Place::Gpr(3) => match width {
            Some(_) => Val::Int(r.r3),
            None => Val::Undef,
        },
        Place::Gpr(4) => match width {
            Some(Width::Long) => Val::Int(r.r4),
            _ => Val::Undef,
        },
        _ => Val::Undef,
    }
}

/// The registers that a call may change hold its result, and no value else (PowerPC EABI, "Register Usage").
pub fn give_results(file: &mut Registers, width: Option<Width>, r: &Reply)
    ensures { file.new ≡ put_each (result_value width r.now) volatile file.old }
{
    for p in volatile() {
        file.put(*p, result_value(width, r, *p));
    }
}

#[tactic(auto, using(crate::proofs::Holding::held_at, crate::proofs::Holding::held_past))]
fn value_in(file: &Registers, registers: &[u8], n: usize) -> Val
    ensures { result ≡ slice_index_or (held Undef file.now registers.now) n Undef }
{
    if n < registers.len() {
        file.get(Place::Gpr(registers[n]))
    } else {
        Val::Undef
    }
}

/// The event of a call with arguments in these registers.
#[tactic(auto, using(crate::proofs::Holding::held_length))]
pub fn event(key: u32, file: &Registers, registers: &[u8]) -> AsmEvent
    requires { length registers.now ≤ 8 }
    ensures { result ≡ event_of (record { key = key; values = held Undef file.now registers.now; reads = [] }) }
{
    AsmEvent {
        number: key,
        count: registers.len() as u8,
        vals: [
            value_in(file, registers, 0),
            value_in(file, registers, 1),
            value_in(file, registers, 2),
            value_in(file, registers, 3),
            value_in(file, registers, 4),
            value_in(file, registers, 5),
            value_in(file, registers, 6),
            value_in(file, registers, 7),
        ],
    }
}
