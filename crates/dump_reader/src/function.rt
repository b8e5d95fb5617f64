//! Functions.

ghost use Rattle.std.specs.Prelude.{◌≡◌, codes};
ghost use Rattle.ordered_tests.specs.Checks.{first_fault};
ghost use Rattle.asm_syntax.specs.declared.path.Step.TheVariants.{Key, Index};
ghost use Rattle.asm_shapes.specs.Shapes.{function_tests};
ghost use Rattle.asm_syntax.specs.ShapeFaults.{shape_place};
ghost use Rattle.asm_shapes.specs.Units.{function_name};
ghost use Rattle.json_tree.specs.Answers.{Gives};
ghost use Rattle.json_tree.specs.Reading.{fail, under};
ghost use Rattle.json_tree.specs.declared.fault.Cause.TheVariants.{Shape};
ghost use Rattle.dump_reader.specs.UnitTree.{function, well_shaped};

use crate::profile::Dump;
use crate::shape::{misshapen, misshapen_at};
use asm_shapes::function_fault;
use asm_syntax::instr::{Function, Instr};
use asm_syntax::shape::ShapeError;
use json_tree::array::list_field_by;
use json_tree::fault::ReadError;
use json_tree::taken::{ReadsNamed, Taken, new_name_field};
use json_tree::tree::{at_key, field, object};
use limits::MOST_INSTRUCTIONS;
use serde_json::Value;
use std::alloc::Global;

fn in_code(alloc: Global, error: ShapeError) -> Result<(), ReadError>
    ensures { Gives result
        (under (Key (codes "code")) (under (Index (shape_place error)) (fail (Shape error)))) }
{
    at_key(alloc, "code", misshapen_at(alloc, error))
}

/// A function with no words is refused as a whole, any other fault at its instruction.
fn well_shaped(alloc: Global, function: &Function) -> Result<(), ReadError>
    ensures { Gives result (well_shaped (first_fault (function_tests function.now.code))) }
{
    match function_fault(alloc, function)? {
        None => Ok(()),
        Some(ShapeError::Empty(at)) => misshapen(alloc, ShapeError::Empty(at)),
        Some(error) => in_code(alloc, error),
    }
}

#[tactic(auto, unfolding(crate::specs::UnitTree::function))]
impl ReadsNamed<Function> for Dump {
    ghost name_of = { function_name };

    ghost reads = { function };

    fn read(alloc: Global, taken: &mut Taken, tree: &Value) -> Result<Function, ReadError> {
        object(alloc, tree)?;
        let name = new_name_field(alloc, taken, tree, "name")?;
        let is_static = field(alloc, tree, "static")?;
        let code = list_field_by::<Dump, Instr>(alloc, tree, "code", MOST_INSTRUCTIONS)?;
        let function = Function {
            name,
            is_static,
            code,
        };
        well_shaped(alloc, &function)?;
        Ok(function)
    }
}
