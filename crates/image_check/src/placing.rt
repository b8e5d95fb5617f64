//! The places of all keys, and what they claim.

ghost use Rattle.std.specs.Prelude.{◌≡◌, ◌++◌, IfOk};
ghost use Rattle.ordered_tests.specs.Checks.{first_fault};
ghost use Rattle.link_model.specs.Claims.{claims};
ghost use Rattle.link_model.specs.Passes.{external_pass, function_pass, variable_pass};
ghost use Rattle.name_addresses.specs.Given.{given};
ghost use Rattle.key_passes.specs.Answers.{Decides};

use coverage::claims::Claims;
use key_passes::bound_program::BoundProgram;
use key_passes::externals::external_pass;
use key_passes::fault::CheckFault;
use key_passes::functions::function_pass;
use key_passes::variables::variable_pass;
use name_addresses::keys::KeyedProgram;
use std::alloc::Global;

/// The external keys, the functions and the variables, and their claims.
pub fn place_keys<P: KeyedProgram>(
    alloc: Global,
    bound: &BoundProgram<P>,
) -> Result<Claims, CheckFault>
    ensures places { let g = given bound.now.segments.now bound.now.layout.now (P.program bound.now.program.now) in
        let bs = bound.now.addresses.now in
        Decides (first_fault (external_pass g bs ++ (function_pass g bs ++ variable_pass g bs))) result }
    ensures claims { let g = given bound.now.segments.now bound.now.layout.now (P.program bound.now.program.now) in
        IfOk result (λ cs. cs ≡ claims g bound.now.addresses.now) }
{
    external_pass(alloc, bound)?;
    let mut claims = Claims::new(alloc);
    function_pass(alloc, bound, &mut claims)?;
    variable_pass(alloc, bound, &mut claims)?;
    Ok(claims)
}
