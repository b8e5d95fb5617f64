//! The registers of arguments, and the buffers that arguments point to.

ghost use Rattle.std.specs.Prelude.{◌≡◌, ◌≤◌};
ghost use Rattle.std.specs.List.{list_all};
ghost use Rattle.ordered_tests.specs.Checks.{fault_of, first_fault};
ghost use Rattle.asm_shapes.specs.Signatures.{
  argument_registers,
  argument_tests,
  buffer_fits,
  buffer_test,
  buffer_tests,
  first_register,
  is_argument_register,
  is_word_argument,
  sig_tests,
  size_fits,
};

use asm_syntax::shape::ShapeError;
use asm_syntax::unit::{Buffer, Sig, Size, Width};
use limits::{MOST_BUFFER_BYTES, MOST_BUFFERS};

/// The first register of an argument, where those below `next` are passed over or used (PowerPC EABI, "Parameter Passing").
pub fn first_register(next: u8, width: Width) -> u8
    requires { next ≤ 11 }
    ensures value { result ≡ first_register next width }
    ensures range { result ≤ 12 }
{
    match width {
        Width::Word => next,
        Width::Long => if next % 2 == 1 { next } else { next + 1 },
    }
}

fn pass_in_registers(args: &[Width]) -> bool
    ensures { result ≡ list_all is_argument_register (argument_registers args.now) }
{
    let mut next = 3;
    for width in args {
        next = first_register(next, *width) + width.words();
        if next > 11 {
            return false;
        }
    }
    true
}

/// Refuses arguments that pass r10.
pub fn valid_arguments(args: &[Width]) -> Result<(), ShapeError>
    ensures { fault_of result ≡ first_fault (argument_tests args.now) }
{
    if pass_in_registers(args) {
        Ok(())
    } else {
        Err(ShapeError::TooManyArgs(0))
    }
}

/// Whether the argument with this place is one word.
fn is_word_argument(args: &[Width], place: u8) -> bool
    ensures { result ≡ is_word_argument args.now place }
{
    match args.get(usize::from(place)) {
        Some(Width::Word) => true,
        _ => false,
    }
}

fn size_fits(args: &[Width], size: Size) -> bool
    ensures { result ≡ size_fits args.now size }
{
    match size {
        Size::Fixed(n) => n <= MOST_BUFFER_BYTES,
        Size::Arg(place) => is_word_argument(args, place),
    }
}

fn buffer_fits(args: &[Width], buffer: &Buffer) -> bool
    ensures { result ≡ buffer_fits args.now buffer.now }
{
    is_word_argument(args, buffer.arg) && size_fits(args, buffer.size)
}

fn check_buffer(args: &[Width], i: usize, buffer: &Buffer) -> Result<(), ShapeError>
    requires { i ≤ MOST_BUFFERS }
    ensures { fault_of result ≡ first_fault (buffer_test args.now (i, buffer.now)) }
{
    if i < MOST_BUFFERS as usize && buffer_fits(args, buffer) {
        Ok(())
    } else {
        Err(ShapeError::BadBuffer(i as u32))
    }
}

/// Refuses the first buffer that does not fit the arguments, and a ninth one.
pub fn valid_buffers(args: &[Width], buffers: &[Buffer]) -> Result<(), ShapeError>
    ensures { fault_of result ≡ first_fault (buffer_tests args.now buffers.now) }
{
    for (i, buffer) in buffers.iter().enumerate() {
        check_buffer(args, i, buffer)?;
    }
    Ok(())
}

/// The first fault of a signature: that its arguments pass r10, else that of its first buffer that has one.
pub fn valid_sig(s: &Sig) -> Result<(), ShapeError>
    ensures { fault_of result ≡ first_fault (sig_tests s.now) }
{
    valid_arguments(s.args.items())?;
    valid_buffers(s.args.items(), s.buffers.items())
}
