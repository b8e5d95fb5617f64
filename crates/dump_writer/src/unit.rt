//! Trees of functions and variables.

ghost use Rattle.std.specs.Prelude.{◌≡◌, IfOk, codes};
ghost use Rattle.serde_json.specs.View.{view};
ghost use Rattle.dump_writer.specs.Rows.{row_items};
ghost use Rattle.dump_model.specs.Trees.{list_data};
ghost use Rattle.dump_model.specs.UnitTree.{
  address_items,
  bytes_items,
  function_data,
  init_data,
  init_items,
  number_items,
  variable_data,
};

use crate::tree::{Row, ToTree, list_value};
use asm_syntax::instr::Function;
use asm_syntax::name::Name;
use asm_syntax::unit::{Init, Variable};
use serde_json::{Value, json};
use std::alloc::{AllocError, Global};

impl ToTree for Function {
    ghost data_of = { function_data };

    fn to_tree(&self, alloc: Global) -> Result<Value, AllocError> {
        let code = list_value(alloc, self.code.items())?;
        json!(in alloc; {"name": self.name.text(), "static": self.is_static, "code": code})
    }
}

fn number_row(alloc: Global, word: &str, n: u32) -> Result<Row, AllocError>
    ensures { IfOk result (λ row. row_items row ≡ number_items word.now n) }
{
    let mut row = Row::new(alloc, word)?;
    row.unsigned(n)?;
    Ok(row)
}

/// Lower-case digits, two for each byte.
fn bytes_row(alloc: Global, bytes: &[u8]) -> Result<Row, AllocError>
    ensures { IfOk result (λ row. row_items row ≡ bytes_items bytes.now) }
{
    let mut row = Row::new(alloc, "bytes")?;
    row.put(Value::String(hex::encode(alloc, bytes)?))?;
    Ok(row)
}

fn address_row(alloc: Global, symbol: &Name, offset: i32) -> Result<Row, AllocError>
    ensures { IfOk result (λ row. row_items row ≡ address_items symbol.now offset) }
{
    let mut row = Row::new(alloc, "addr")?;
    row.text(alloc, symbol.text())?;
    row.signed(offset)?;
    Ok(row)
}

fn init_row(alloc: Global, init: &Init) -> Result<Row, AllocError>
    ensures { IfOk result (λ row. row_items row ≡ init_items init.now) }
{
    match init {
        Init::Int8(n) => number_row(alloc, "i8", u32::from(*n)),
        Init::Int16(n) => number_row(alloc, "i16", u32::from(*n)),
        Init::Int32(n) => number_row(alloc, "i32", *n),
        Init::Bytes(bytes) => bytes_row(alloc, bytes.items()),
        Init::Space(n) => number_row(alloc, "space", *n),
        Init::Addr(symbol, offset) => address_row(alloc, symbol, *offset),
    }
}

impl ToTree for Init {
    ghost data_of = { init_data };

    fn to_tree(&self, alloc: Global) -> Result<Value, AllocError> {
        let row = init_row(alloc, self)?;
        Ok(row.finish())
    }
}

impl ToTree for Variable {
    ghost data_of = { variable_data };

    fn to_tree(&self, alloc: Global) -> Result<Value, AllocError> {
        let init = list_value(alloc, self.init.items())?;
        json!(in alloc; {
            "name": self.name.text(),
            "static": self.is_static,
            "writable": self.writable,
            "align": self.align,
            "init": init,
        })
    }
}
