//! Numbers of names in scopes.

ghost use Rattle.std.specs.Prelude.{◌≡◌, List, ℕ, [], cond, OnOk, IfOk, Some, None};
ghost use Rattle.std.specs.Map.{lookup};
ghost use Rattle.std.specs.Ordering.{nat_cmp, ordering_then};
ghost use Rattle.asm_program.specs.Coded.{by_coded};
ghost use Rattle.asm_program.specs.Scopes.{is_same};

use crate::codes::CodedName;
use std::alloc::{AllocError, Global};
use std::cmp::Ordering;
use std::collections::BTreeMap;
use std::marker::Model;

/// Seen as the numbers by scope and name, in the order of the names' codes, of names and then of scopes.
#[derive(Drop)]
pub struct Numbers<'u> {
    kept: BTreeMap<(CodedName<'u>, u64), u32>,
}

impl<'u> Model for Numbers<'u> {
    ghost use Rattle.std.specs.Prelude.{List, ℕ};
    ghost use Rattle.asm_program.specs.Numbered.{numbered};

    ghost Value = { List ((ℕ × List ℕ) × ℕ) };

    ghost view = { λ numbers. numbered numbers.kept.entries };
}

impl<'u> Numbers<'u> {
    pub fn new(alloc: Global) -> Numbers<'u>
        ensures { result ≡ [] }
    {
        Numbers {
            kept: BTreeMap::new(alloc),
        }
    }

    pub fn get(&self, scope: u64, name: &'u [u8]) -> Option<u32>
        ensures { result ≡ lookup (is_same (scope, name.now)) self.now }
    {
        self.kept.get(&(CodedName::new(name), scope)).copied()
    }

    /// Gives a name a number in place of the one that it has.
    pub fn set(&mut self, scope: u64, name: &'u [u8], number: u32) -> Result<(), AllocError>
        ensures { OnOk result
            ((q : ℕ × List ℕ) → lookup (is_same q) self.new ≡ cond (is_same q (scope, name.now)) (Some number)
            (lookup (is_same q) self.old)) }
    {
        self.kept.insert((CodedName::new(name), scope), number)?;
        Ok(())
    }

    /// The numbers as they are looked up by names of any lifetime.
    pub fn table(&self, alloc: Global) -> Result<NumberTable<'u>, AllocError>
        ensures { IfOk result (λ table. table ≡ self.now) }
    {
        let mut rows = Vec::new(alloc);
        for ((name, scope), number) in self.kept.iter() {
            rows.push(Row {
                name: *name,
                scope: *scope,
                number: *number,
            })?;
        }
        Ok(NumberTable { rows })
    }
}

/// The number of a name in a scope.
#[derive(Clone, Copy)]
pub struct Row<'u> {
    name: CodedName<'u>,
    scope: u64,
    number: u32,
}

/// Seen as `Numbers` are.
#[derive(Drop)]
pub struct NumberTable<'u> {
    rows: Vec<Row<'u>>,
}

impl<'u> Model for NumberTable<'u> {
    ghost use Rattle.std.specs.Prelude.{List, ℕ, map};
    ghost use Rattle.asm_program.specs.Numbered.{row_seen, AreInOrder};

    ghost Value = { List ((ℕ × List ℕ) × ℕ) };

    ghost view = { λ table. map row_seen table.rows.items };

    ghost invariant = { λ table. AreInOrder (map row_seen table.rows.items) };
}

fn compare(row: &Row<'_>, name: &CodedName<'_>, scope: u64) -> Ordering
    ensures { result ≡ ordering_then (by_coded row.now.name name.now) (nat_cmp row.now.scope scope) }
{
    row.name.cmp(name).then(row.scope.cmp(&scope))
}

impl<'u> NumberTable<'u> {
    pub fn get(&self, scope: u64, name: &[u8]) -> Option<u32>
        ensures { result ≡ lookup (is_same (scope, name.now)) self.now }
    {
        let coded = CodedName::new(name);
        match self
            .rows
            .binary_search_by(|row| compare(row, &coded, scope))
        {
            Ok(i) => Some(self.rows[i].number),
            Err(_) => None,
        }
    }
}
