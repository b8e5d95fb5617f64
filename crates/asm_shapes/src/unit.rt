//! The limits of a unit and the names in it.

ghost use Rattle.std.specs.Prelude.{◌≡◌, ℕ, List, map, IsTrue};
ghost use Rattle.ordered_tests.specs.Lists.{EachOf};
ghost use Rattle.asm_shapes.specs.Shapes.{HasShape, is_valid_code};
ghost use Rattle.asm_shapes.specs.Signatures.{is_valid_sig};
ghost use Rattle.asm_shapes.specs.Units.{
  are_apart,
  are_distinct,
  counts_fit,
  external_fits,
  external_name,
  function_fits,
  function_name,
  is_alignment,
  is_among,
  table_fits,
  unit_fits,
  unit_names,
  variable_fits,
  variable_name,
};
ghost use Rattle.std.specs.List.{list_all};

use crate::function::valid_function;
use crate::signature::valid_sig;
use asm_syntax::instr::{Function, Instr};
use asm_syntax::name::Name;
use asm_syntax::unit::{External, Sig, Unit, Variable, variable_size};
use limits::{
    MOST_EXTERNALS, MOST_FUNCTIONS, MOST_INIT_ITEMS, MOST_INSTRUCTIONS, MOST_LABELS, MOST_VARIABLES,
};

/// What has a name in a unit.
trait Named: Sized {
    ghost name_of: { Self → List ℕ };

    fn name(&self) -> &Name
        ensures { result.now ≡ name_of self.now };
}

impl Named for Function {
    ghost name_of = { function_name };

    fn name(&self) -> &Name {
        &self.name
    }
}

impl Named for Variable {
    ghost name_of = { variable_name };

    fn name(&self) -> &Name {
        &self.name
    }
}

impl Named for External {
    ghost name_of = { external_name };

    fn name(&self) -> &Name {
        &self.name
    }
}

fn has_name<T: Named>(items: &[T], name: &Name) -> bool
    ensures { result ≡ is_among (map T.name_of items.now) name.now }
{
    for item in items {
        if item.name() == name {
            return true;
        }
    }
    false
}

fn are_distinct<T: Named>(items: &[T]) -> bool
    ensures { result ≡ are_distinct (map T.name_of items.now) }
{
    for (i, item) in items.iter().enumerate() {
        if has_name(&items[i + 1..], item.name()) {
            return false;
        }
    }
    true
}

fn are_apart<T: Named, U: Named>(items: &[T], others: &[U]) -> bool
    ensures { result ≡ are_apart (map T.name_of items.now) (map U.name_of others.now) }
{
    for item in items {
        if has_name(others, item.name()) {
            return false;
        }
    }
    true
}

#[tactic(auto, using(crate::proofs::NamesLemmas::distinct_parts))]
fn names_are_distinct(u: &Unit) -> bool
    ensures { result ≡ are_distinct (unit_names u.now) }
{
    let functions = u.functions.items();
    let variables = u.variables.items();
    let externals = u.externals.items();
    are_distinct(functions)
        && are_distinct(variables)
        && are_distinct(externals)
        && are_apart(variables, externals)
        && are_apart(functions, variables)
        && are_apart(functions, externals)
}

fn table_fits(instr: &Instr) -> bool
    ensures { result ≡ table_fits instr.now }
{
    match instr {
        Instr::Btbl(_, labels) => {
            let count = labels.items().len();
            1 <= count && count <= MOST_LABELS as usize
        }
        _ => true,
    }
}

fn tables_fit(code: &[Instr]) -> bool
    ensures { result ≡ list_all table_fits code.now }
{
    code.iter().all(|instr| table_fits(instr))
}

fn has_valid_code(f: &Function) -> bool
    ensures { result ≡ is_valid_code f.now.code }
{
    match valid_function(f) {
        Ok(()) => true,
        Err(_) => false,
    }
}

fn function_fits(f: &Function) -> bool
    ensures { result ≡ function_fits f.now }
{
    let code = f.code.items();
    code.len() <= MOST_INSTRUCTIONS as usize && tables_fit(code) && has_valid_code(f)
}

fn is_alignment(n: u8) -> bool
    ensures { result ≡ is_alignment n }
{
    matches!(n, 1 | 2 | 4 | 8 | 16)
}

fn variable_fits(v: &Variable) -> bool
    ensures { result ≡ variable_fits v.now }
{
    let init = v.init.items();
    is_alignment(v.align) && init.len() <= MOST_INIT_ITEMS as usize && variable_size(init).is_some()
}

fn has_valid_sig(sig: &Sig) -> bool
    ensures { result ≡ is_valid_sig sig.now }
{
    match valid_sig(sig) {
        Ok(()) => true,
        Err(_) => false,
    }
}

fn external_fits(e: &External) -> bool
    ensures { result ≡ external_fits e.now }
{
    match &e.sig {
        Some(sig) => has_valid_sig(sig),
        None => true,
    }
}

fn counts_fit(u: &Unit) -> bool
    ensures { result ≡ counts_fit u.now }
{
    u.functions.items().len() <= MOST_FUNCTIONS as usize
        && u.variables.items().len() <= MOST_VARIABLES as usize
        && u.externals.items().len() <= MOST_EXTERNALS as usize
}

fn functions_fit(functions: &[Function]) -> bool
    ensures { result ≡ list_all function_fits functions.now }
{
    functions.iter().all(|f| function_fits(f))
}

fn variables_fit(variables: &[Variable]) -> bool
    ensures { result ≡ list_all variable_fits variables.now }
{
    variables.iter().all(|v| variable_fits(v))
}

fn externals_fit(externals: &[External]) -> bool
    ensures { result ≡ list_all external_fits externals.now }
{
    externals.iter().all(|e| external_fits(e))
}

/// Whether the counts and sizes are inside the limits, no two names are the same, and each function and signature has its shape.
/// The time grows with the square of the number of names, since it takes no memory.
#[tactic(auto, using(crate::proofs::UnitLemmas::unit_shapes))]
pub fn unit_fits(u: &Unit) -> bool
    ensures value { result ≡ unit_fits u.now }
    ensures shapes { IsTrue result → EachOf (λ f. HasShape f.code) u.now.functions }
{
    counts_fit(u)
        && names_are_distinct(u)
        && functions_fit(u.functions.items())
        && variables_fit(u.variables.items())
        && externals_fit(u.externals.items())
}
