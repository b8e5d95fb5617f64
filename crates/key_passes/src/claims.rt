//! The claims of functions, of their tables and of variables.

ghost use Rattle.std.specs.Prelude.{◌≡◌, ◌++◌, ◌∷◌, [], ℕ, List, OnOk, map};
ghost use Rattle.std.specs.Option.{option_map_or};
ghost use Rattle.word_ops.specs.Seen.{extent_of};
ghost use Rattle.image_model.specs.Image.{Image};
ghost use Rattle.asm_syntax.specs.declared.instr.Instr.{Instr};
ghost use Rattle.link_model.specs.declared.owner.Owner.TheVariants as owners;
ghost use Rattle.link_model.specs.Claims.{claim, code_range, table_claims};
ghost use Rattle.expansions.specs.Tables.{table_claim};
ghost use Rattle.expansions.specs.Faults.{IsPlaced};

use asm_syntax::name::Name;
use coverage::claims::Claims;
use expansions::function::Placed;
use expansions::table::Table;
use link_model::owner::Owner;
use std::alloc::{AllocError, Global};
use word_ops::range::Range;

fn add_table(
    alloc: Global,
    claims: &mut Claims,
    unit: &Name,
    name: &Name,
    table: &Table,
) -> Result<(), AllocError>
    ensures { OnOk result (claims.new ≡ claims.old ++ table_claim (owners.Table unit.now name.now) table.now ∷ []) }
{
    let owner = Owner::Table(unit.copy(alloc)?, name.copy(alloc)?, table.offset);
    claims.add(table.range, owner)
}

fn add_tables(
    alloc: Global,
    claims: &mut Claims,
    unit: &Name,
    name: &Name,
    tables: &[Table],
) -> Result<(), AllocError>
    ensures { OnOk result (claims.new ≡ claims.old ++ map (table_claim (owners.Table unit.now name.now)) tables.now) }
{
    for table in tables {
        add_table(alloc, claims, unit, name, table)?;
    }
    Ok(())
}

/// The claims of a function and of its tables, of which the unit and the function have these names.
pub fn add_function(
    alloc: Global,
    claims: &mut Claims,
    unit: &Name,
    name: &Name,
    placed: &Placed,
) -> Result<(), AllocError>
    ensures { (v : Image) (a : ℕ) (code : List Instr) → IsPlaced v a code placed.now →
        OnOk result (claims.new ≡ claims.old ++ (claim (code_range v a code) (owners.Function unit.now name.now)
        ∷ table_claims v (owners.Table unit.now name.now) a a code)) }
{
    let owner = Owner::Function(unit.copy(alloc)?, name.copy(alloc)?);
    claims.add(placed.range, owner)?;
    add_tables(alloc, claims, unit, name, placed.tables.items())
}

/// The claim of a variable, of which the unit and the variable have these names.
pub fn add_variable(
    alloc: Global,
    claims: &mut Claims,
    unit: &Name,
    name: &Name,
    range: Range,
) -> Result<(), AllocError>
    ensures { OnOk result (claims.new ≡ claims.old ++ claim (extent_of range) (owners.Variable unit.now name.now) ∷ []) }
{
    let owner = Owner::Variable(unit.copy(alloc)?, name.copy(alloc)?);
    claims.add(range, owner)
}
