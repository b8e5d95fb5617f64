//! The buffers of a call, its event, and what a reply writes.

ghost use Rattle.std.specs.Prelude.{◌≡◌, take, slice_index_or};
ghost use Rattle.call_bytes.specs.Calls.{arguments, first_fill, rest_fills, register_at, registers_of_arguments};
ghost use Rattle.effect_model.specs.Files.{get};
ghost use Rattle.effect_model.specs.declared.Place.TheVariants.{Gpr};
ghost use Rattle.flat_mem.specs.Memory.{set_bytes};
ghost use Rattle.ppc_machine.specs.Answers.{shown};
ghost use Rattle.ppc_machine.specs.Buffers.{buffer_size, buffer_fault, buffers_fault, bytes_at, reads, filled};
ghost use Rattle.ppc_machine.specs.Kept.{kept_list, kept_lists};

use crate::externals::{Event, External};
use crate::registers::Registers;
use asm_syntax::unit::{Buffer, ByteList, Sig, Size};
use call_bytes::arguments::Arguments;
use call_bytes::bytes::CallBytes;
use effect_model::Place;
use flat_mem::memory::{FaultKind, FlatMem};
use limits::MOST_BUFFER_BYTES;

/// What the first register of the argument at a place holds.
#[tactic(auto, using(crate::proofs::CallLaws::found_or))]
fn argument(f: &Registers, sig: &Sig, args: &Arguments, place: u8) -> u32
    requires { args.now ≡ registers_of_arguments sig.now.args }
    ensures { result ≡ get 0 f.now (Gpr (register_at sig.now place)) }
{
    f.get(Place::Gpr(args.first(place).unwrap_or(3)))
}

/// How long a buffer is.
fn buffer_size(f: &Registers, sig: &Sig, args: &Arguments, b: &Buffer) -> u32
    requires { args.now ≡ registers_of_arguments sig.now.args }
    ensures { result ≡ buffer_size f.now sig.now b.now }
{
    match b.size {
        Size::Fixed(n) => n,
        Size::Arg(place) => argument(f, sig, args, place),
    }
}

/// What a buffer lacks.
fn buffer_fault(mem: &FlatMem, fills: bool, a: u32, n: u32) -> Option<FaultKind>
    ensures { result ≡ buffer_fault mem.now fills a n }
{
    if n > MOST_BUFFER_BYTES {
        Some(FaultKind::Buffer)
    } else if !mem.are_mapped(n, a) {
        Some(FaultKind::Unmapped)
    } else if fills && !mem.may_write_all(n, a) {
        Some(FaultKind::ReadOnly)
    } else {
        None
    }
}

/// The first fault of the buffers, in their order.
pub fn buffers_fault(mem: &FlatMem, f: &Registers, sig: &Sig, args: &Arguments) -> Option<FaultKind>
    requires { args.now ≡ registers_of_arguments sig.now.args }
    ensures { result ≡ buffers_fault mem.now f.now sig.now sig.now.buffers }
{
    for b in sig.buffers.items() {
        let n = buffer_size(f, sig, args, b);
        let fault = buffer_fault(mem, b.fills, argument(f, sig, args, b.arg), n);
        if fault.is_some() {
            return fault;
        }
    }
    None
}

/// The word of the arguments with this number, 0 past the last.
#[tactic(auto, using(crate::proofs::CallLaws::held_at, crate::proofs::CallLaws::held_past))]
fn argument_word(f: &Registers, sig: &Sig, args: &Arguments, i: usize) -> u32
    requires { args.now ≡ registers_of_arguments sig.now.args }
    ensures { result ≡ slice_index_or (arguments 0 f.now sig.now) i 0 }
{
    let words = args.words();
    if i < words.len() {
        f.get(Place::Gpr(words[i]))
    } else {
        0
    }
}

/// The event of a call.
#[tactic(auto, using(crate::proofs::CallLaws::length_held))]
pub fn event(f: &Registers, x: &External, args: &Arguments) -> Event
    requires { args.now ≡ registers_of_arguments x.now.sig.args }
    ensures { result ≡ shown x.now.number (arguments 0 f.now x.now.sig) }
{
    Event {
        number: x.number,
        count: args.words().len() as u8,
        words: [
            argument_word(f, &x.sig, args, 0),
            argument_word(f, &x.sig, args, 1),
            argument_word(f, &x.sig, args, 2),
            argument_word(f, &x.sig, args, 3),
            argument_word(f, &x.sig, args, 4),
            argument_word(f, &x.sig, args, 5),
            argument_word(f, &x.sig, args, 6),
            argument_word(f, &x.sig, args, 7),
        ],
    }
}

/// The bytes from an address on, as one list more.
fn read_bytes(mem: &FlatMem, a: u32, n: u32, bytes: &mut CallBytes)
    ensures { bytes.new ≡ kept_list bytes.old (bytes_at mem.now a n) }
{
    bytes.open();
    let mut at = a;
    let mut left = n;
    while left > 0 {
        bytes.put(mem.byte_or_zero(at));
        at = at.wrapping_add(1);
        left -= 1;
    }
}

/// The bytes of the buffers that the call reads, a list for each.
pub fn read_buffers(
    mem: &FlatMem,
    f: &Registers,
    sig: &Sig,
    args: &Arguments,
    bytes: &mut CallBytes,
)
    requires { args.now ≡ registers_of_arguments sig.now.args }
    ensures { bytes.new ≡ kept_lists bytes.old (reads mem.now f.now sig.now sig.now.buffers) }
{
    for b in sig.buffers.items() {
        if !b.fills {
            read_bytes(
                mem,
                argument(f, sig, args, b.arg),
                buffer_size(f, sig, args, b),
                bytes,
            );
        }
    }
}

fn put_bytes(mem: &mut FlatMem, a: u32, bytes: &[u8])
    ensures { mem.new ≡ set_bytes mem.old a bytes.now }
{
    let mut at = a;
    for b in bytes {
        mem.set(at, *b);
        at = at.wrapping_add(1);
    }
}

/// As many of the bytes as the size allows.
fn fill_from(mem: &mut FlatMem, a: u32, n: u32, bytes: &[u8])
    ensures { mem.new ≡ set_bytes mem.old a (take n bytes.now) }
{
    let n = (n as usize).min(bytes.len());
    put_bytes(mem, a, &bytes[..n]);
}

/// The first fill, empty where there is none.
fn first_fill(fills: &[ByteList]) -> &[u8]
    ensures { result.now ≡ first_fill fills.now }
{
    if fills.is_empty() {
        &[]
    } else {
        fills[0].items()
    }
}

/// The fills behind the first.
fn rest_fills(fills: &[ByteList]) -> &[ByteList]
    ensures { result.now ≡ rest_fills fills.now }
{
    if fills.is_empty() { fills } else { &fills[1..] }
}

/// What a reply writes into the buffers that the call fills.
pub fn fill_buffers(
    mem: &mut FlatMem,
    f: &Registers,
    sig: &Sig,
    args: &Arguments,
    fills: &[ByteList],
)
    requires { args.now ≡ registers_of_arguments sig.now.args }
    ensures { mem.new ≡ filled mem.old f.now sig.now sig.now.buffers fills.now }
{
    let mut left = fills;
    for b in sig.buffers.items() {
        if !b.fills {
            continue;
        }
        let n = buffer_size(f, sig, args, b);
        fill_from(mem, argument(f, sig, args, b.arg), n, first_fill(left));
        left = rest_fills(left);
    }
}
