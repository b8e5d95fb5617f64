//! Faults of shape.

ghost use Rattle.asm_syntax.specs.declared.path.Step.TheVariants.{Index};
ghost use Rattle.asm_syntax.specs.ShapeFaults.{shape_place};
ghost use Rattle.json_tree.specs.Answers.{Gives};
ghost use Rattle.json_tree.specs.Reading.{fail, under};
ghost use Rattle.json_tree.specs.declared.fault.Cause.TheVariants.{Shape};

use asm_syntax::shape::ShapeError;
use json_tree::fault::{Cause, ReadError};
use json_tree::tree::at_index;
use std::alloc::Global;

/// A fault of the whole.
pub fn misshapen(alloc: Global, error: ShapeError) -> Result<(), ReadError>
    ensures { Gives result (fail (Shape error)) }
{
    Err(ReadError::here(alloc, Cause::Shape(error)))
}

/// A fault of the instruction or the buffer with the error's number.
pub fn misshapen_at(alloc: Global, error: ShapeError) -> Result<(), ReadError>
    ensures { Gives result (under (Index (shape_place error)) (fail (Shape error))) }
{
    at_index(alloc, error.place(), misshapen(alloc, error))
}
