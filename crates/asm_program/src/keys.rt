//! The keys of a program, in the order of their numbers.

ghost use Rattle.std.specs.Prelude.{◌≡◌, ◌<◌, ◌^◌, List, ℕ, [], length, map, position, IfOk};
ghost use Rattle.std.specs.Map.{lookup};
ghost use Rattle.link_model.specs.Sets.{first_of_each};
ghost use Rattle.link_model.specs.Program.{same_key};
ghost use Rattle.asm_program.specs.Scopes.{is_same, is_of};
ghost use Rattle.asm_program.specs.Seen.{declaration_seen};

use crate::declared::Declared;
use crate::numbers::Numbers;
use std::alloc::{AllocError, Global};

/// The keys, and their numbers by scope and name.
#[derive(Drop)]
pub struct Keys<'u> {
    pub list: Vec<Declared<'u>>,
    pub numbers: Numbers<'u>,
}

/// The first declaration of each key, of declarations that are keys.
pub fn keys_of<'u>(alloc: Global, standing: &[Declared<'u>]) -> Result<Keys<'u>, AllocError>
    requires { length standing.now < 2 ^ 32 }
    ensures list { IfOk result
        (λ keys. map declaration_seen keys.list.items ≡ first_of_each same_key [] (map declaration_seen standing.now)) }
    ensures numbers { IfOk result (λ keys. (q : ℕ × List ℕ)
        → lookup (is_same q) keys.numbers ≡ position (is_of q) (map declaration_seen keys.list.items)) }
{
    let mut list = Vec::new(alloc);
    let mut numbers = Numbers::new(alloc);
    for d in standing {
        let scope = d.scope();
        let name = d.name().bytes();
        if numbers.get(scope, name).is_none() {
            numbers.set(scope, name, list.len() as u32)?;
            list.push(*d)?;
        }
    }
    Ok(Keys { list, numbers })
}
