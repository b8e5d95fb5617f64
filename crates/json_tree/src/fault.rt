//! Why a tree is none of a profile.

ghost use Rattle.std.specs.Prelude.{◌≡◌, [], ◌∷◌, OnOk};
ghost use Rattle.json_tree.specs.declared.fault.ReadError.TheVariants.{Memory};

use asm_syntax::listed::Listed;
use asm_syntax::path::Step;
use asm_syntax::shape::ShapeError;
use std::alloc::{AllocError, AllocFailed, Global};
use std::marker::Model;

/// What is wrong at a place.
#[derive(Clone, Copy, Debug, PartialEq, Eq, Drop)]
pub enum Cause {
    /// No member at a key.
    Missing,
    /// Another kind of value, or a number that is no integer of 64 bits.
    WrongKind,
    /// A number, text or number of items outside its range.
    OutOfRange,
    /// A text outside its list.
    UnknownWord,
    /// A version that is not read.
    Version,
    /// A function or a signature whose shape is wrong.
    Shape(ShapeError),
    /// A text that names what is known and left out.
    Refused,
    /// The ends of a range in the wrong order, or outside their bounds.
    RangeOrder,
    /// An address that is no multiple of what is wanted.
    Unaligned,
    /// More than so many items or bytes.
    Limit(u32),
}

/// A path that is built from its end: the list of its steps from the top.
#[derive(Debug, Drop)]
pub struct Trail {
    from_the_end: Vec<Step>,
}

impl Model for Trail {
    ghost use Rattle.std.specs.Prelude.{List, reverse};
    ghost use Rattle.asm_syntax.specs.declared.path.Step.{Step};

    ghost Value = { List Step };

    ghost view = { λ trail. reverse trail.from_the_end.items };
}

impl Trail {
    /// No step. It takes no memory before the first push.
    pub fn new(alloc: Global) -> Trail
        ensures { result ≡ [] }
    {
        Trail {
            from_the_end: Vec::new(alloc),
        }
    }

    /// Puts a step before the others.
    pub fn push(&mut self, step: Step) -> Result<(), AllocError>
        ensures { OnOk result (self.new ≡ step ∷ self.old) }
    {
        self.from_the_end.push(step)?;
        Ok(())
    }

    /// The steps from the top. It takes no memory.
    pub fn into_path(mut self) -> Listed<Step>
        ensures { result ≡ self }
    {
        self.from_the_end.reverse();
        Listed::from_vec(self.from_the_end)
    }
}

/// What is wrong, and where.
#[derive(Debug, Drop)]
pub struct Fault {
    pub cause: Cause,
    pub path: Trail,
}

/// Why nothing was read. Only a fault is the text's.
#[derive(Debug, Drop)]
pub enum ReadError {
    Memory,
    Fault(Fault),
}

impl ReadError {
    /// A fault at the place itself. It takes no memory.
    pub fn here(alloc: Global, cause: Cause) -> ReadError
        ensures { result ≡ ReadError.Fault (record { cause = cause; path = [] }) }
    {
        ReadError::Fault(Fault {
            cause,
            path: Trail::new(alloc),
        })
    }
}

impl From<AllocError> for ReadError {
    ghost from_gives = { λ _ error. error ≡ Memory };

    fn from(_error: AllocError) -> ReadError {
        ReadError::Memory
    }
}

impl<T: Drop> From<AllocFailed<T>> for ReadError {
    ghost from_gives = { λ _ error. error ≡ Memory };

    fn from(_error: AllocFailed<T>) -> ReadError {
        ReadError::Memory
    }
}
