//! Trees of lists, and arrays that are built item by item.

ghost use Rattle.std.specs.Prelude.{◌≡◌, ℕ, ℤ, List, [], ◌∷◌, ◌++◌, map, IfOk, OnOk};
ghost use Rattle.serde_json.specs.Data.{Data, string};
ghost use Rattle.serde_json.specs.View.{view};
ghost use Rattle.dump_model.specs.Trees.{unsigned_data, signed_data, array_of, list_data};
ghost use Rattle.dump_writer.specs.Rows.{row_items};

use serde_json::Value;
use std::alloc::{AllocError, Global};

/// A type whose values are written in one way, as its definition `data_of` says.
pub trait ToTree {
    ghost data_of: { Self → Data };

    fn to_tree(&self, alloc: Global) -> Result<Value, AllocError>
        ensures { IfOk result (λ value. view value ≡ data_of self.now) };
}

/// A form in which the values of a type are written, for a type that has several.
pub trait Writes<T> {
    ghost data_of: { T → Data };

    fn to_tree(alloc: Global, value: &T) -> Result<Value, AllocError>
        ensures { IfOk result (λ tree. view tree ≡ data_of value.now) };
}

/// What is written as its own type says.
pub struct Own;

impl<T: ToTree> Writes<T> for Own {
    ghost data_of = { T.data_of };

    fn to_tree(alloc: Global, value: &T) -> Result<Value, AllocError> {
        value.to_tree(alloc)
    }
}

impl ToTree for u32 {
    ghost data_of = { unsigned_data };

    fn to_tree(&self, _alloc: Global) -> Result<Value, AllocError> {
        Ok(Value::from(*self))
    }
}

/// The array of the trees of the items in a form.
pub fn list_value_by<P: Writes<T>, T>(alloc: Global, items: &[T]) -> Result<Value, AllocError>
    ensures { IfOk result (λ value. view value ≡ list_data P.data_of items.now) }
{
    let mut values = Vec::new(alloc);
    for item in items {
        values.push(P::to_tree(alloc, item)?)?;
    }
    Ok(Value::Array(values))
}

/// The array of the trees of the items.
pub fn list_value<T: ToTree>(alloc: Global, items: &[T]) -> Result<Value, AllocError>
    ensures { IfOk result (λ value. view value ≡ list_data T.data_of items.now) }
{
    list_value_by::<Own, T>(alloc, items)
}

/// An array that is being built.
#[derive(Drop)]
pub struct Row {
    values: Vec<Value>,
}

impl Row {
    /// The array of a word alone. In each array of the profile that is built, a word comes first.
    pub fn new(alloc: Global, word: &str) -> Result<Row, AllocError>
        ensures { IfOk result (λ row. row_items row ≡ string word.now ∷ []) }
    {
        let mut row = Row {
            values: Vec::new(alloc),
        };
        row.text(alloc, word)?;
        Ok(row)
    }

    pub fn put(&mut self, value: Value) -> Result<(), AllocError>
        ensures { OnOk result (row_items self.new ≡ row_items self.old ++ view value ∷ []) }
    {
        self.values.push(value)?;
        Ok(())
    }

    pub fn text(&mut self, alloc: Global, text: &str) -> Result<(), AllocError>
        ensures { OnOk result (row_items self.new ≡ row_items self.old ++ string text.now ∷ []) }
    {
        self.put(Value::try_from_str(alloc, text)?)
    }

    pub fn unsigned(&mut self, number: u32) -> Result<(), AllocError>
        ensures { OnOk result (row_items self.new ≡ row_items self.old ++ unsigned_data number ∷ []) }
    {
        self.put(Value::from(number))
    }

    pub fn signed(&mut self, number: i32) -> Result<(), AllocError>
        ensures { OnOk result (row_items self.new ≡ row_items self.old ++ signed_data number ∷ []) }
    {
        self.put(Value::from(number))
    }

    pub fn finish(self) -> Value
        ensures { view result ≡ array_of (row_items self) }
    {
        Value::Array(self.values)
    }
}
