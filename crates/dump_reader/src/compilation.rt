//! Compilation units.

ghost use Rattle.std.specs.Prelude.{◌≡◌, codes};
ghost use Rattle.serde_json.specs.View.{view};
ghost use Rattle.asm_shapes.specs.Units.{external_name};
ghost use Rattle.json_tree.specs.Answers.{Gives};
ghost use Rattle.json_tree.specs.NewNames.{named_list};
ghost use Rattle.json_tree.specs.Reading.{field};
ghost use Rattle.dump_reader.specs.Versions.{has_buffers};
ghost use Rattle.dump_reader.specs.UnitTree.{external, unit};

use crate::profile::{Dump, NEWEST, WithBuffers, WithoutBuffers};
use asm_syntax::instr::Function;
use asm_syntax::unit::{External, ExternalList, Unit, Variable};
use json_tree::fault::ReadError;
use json_tree::profile::header;
use json_tree::taken::{Taken, named_list_field};
use json_tree::tree::{Reads, field};
use limits::{MOST_EXTERNALS, MOST_FUNCTIONS, MOST_VARIABLES};
use serde_json::Value;
use std::alloc::Global;

/// The externals, as the version of the unit has them.
fn externals(
    alloc: Global,
    taken: &mut Taken,
    tree: &Value,
    version: u32,
) -> Result<ExternalList, ReadError>
    ensures { Gives result (field (codes "externals")
        (named_list external_name (external (has_buffers version)) taken.old MOST_EXTERNALS) (view tree.now)) }
{
    if version >= 2 {
        named_list_field::<WithBuffers, External>(alloc, taken, tree, "externals", MOST_EXTERNALS)
    } else {
        named_list_field::<WithoutBuffers, External>(
            alloc,
            taken,
            tree,
            "externals",
            MOST_EXTERNALS,
        )
    }
}

#[tactic(auto, unfolding(crate::specs::UnitTree::unit))]
impl Reads<Unit> for Dump {
    ghost reads = { unit };

    fn read(alloc: Global, tree: &Value) -> Result<Unit, ReadError> {
        let version = header(alloc, tree, "unit", NEWEST)?;
        let name = field(alloc, tree, "unit")?;
        let mut taken = Taken::new(alloc);
        let functions = named_list_field::<Dump, Function>(
            alloc,
            &mut taken,
            tree,
            "functions",
            MOST_FUNCTIONS,
        )?;
        let variables = named_list_field::<Dump, Variable>(
            alloc,
            &mut taken,
            tree,
            "variables",
            MOST_VARIABLES,
        )?;
        let externals = externals(alloc, &mut taken, tree, version)?;
        Ok(Unit {
            name,
            functions,
            variables,
            externals,
        })
    }
}
