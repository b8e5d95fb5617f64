//! The alignments of keys.

ghost use Rattle.std.specs.Prelude.{◌≡◌, ◌≤◌, List, ℕ, map, max, IfOk};
ghost use Rattle.std.specs.Map.{lookup};
ghost use Rattle.std.specs.Option.{unwrap_or};
ghost use Rattle.asm_program.specs.Scopes.{is_same};
ghost use Rattle.asm_program.specs.Seen.{declaration_seen};
ghost use Rattle.linked_program.specs.Alignments.{greatest, alignment_in};

use asm_program::declared::Declared;
use asm_program::numbers::Numbers;
use std::alloc::{AllocError, Global};

fn greater(before: u32, alignment: u8) -> u32
    ensures { result ≡ max before alignment }
{
    before.max(u32::from(alignment))
}

/// The greatest alignment of each name in its scope.
fn greatest_of<'u>(alloc: Global, all: &[Declared<'u>]) -> Result<Numbers<'u>, AllocError>
    ensures value { IfOk result (λ numbers. (q : ℕ × List ℕ)
        → unwrap_or (lookup (is_same q) numbers) 1 ≡ greatest q (map declaration_seen all.now)) }
    ensures range { IfOk result (λ numbers. (q : ℕ × List ℕ) → unwrap_or (lookup (is_same q) numbers) 1 ≤ 255) }
{
    let mut numbers = Numbers::new(alloc);
    for d in all {
        let scope = d.scope();
        let name = d.name().bytes();
        let before = numbers.get(scope, name).unwrap_or(1);
        numbers.set(scope, name, greater(before, d.alignment()))?;
    }
    Ok(numbers)
}

/// The alignment of each key: the greatest of its declarations.
pub fn alignments_of<'u>(
    alloc: Global,
    all: &[Declared<'u>],
    keys: &[Declared<'u>],
) -> Result<Vec<u8>, AllocError>
    ensures { IfOk result (λ list. list.items ≡ map (alignment_in (map declaration_seen all.now)) (map declaration_seen keys.now)) }
{
    let numbers = greatest_of(alloc, all)?;
    let mut list = Vec::new(alloc);
    for d in keys {
        let greatest = numbers.get(d.scope(), d.name().bytes()).unwrap_or(1);
        list.push(greatest as u8)?;
    }
    Ok(list)
}
