//! Where the labels of a code stand.

ghost use Rattle.std.specs.Prelude.{◌≡◌, ◌<◌, List, length, IfOk, IfSome};
ghost use Rattle.asm_syntax.specs.declared.instr.Instr.{Instr};
ghost use Rattle.asm_syntax.specs.Instructions.{label_place};
ghost use Rattle.asm_shapes.specs.Labels.{Places};

use asm_syntax::instr::{Instr, label_place};
use std::alloc::{AllocError, Global};
use std::collections::BTreeMap;
use std::marker::Model;

/// The code of a function, which tells where its labels stand.
pub trait Labelled {
    ghost code: { Self → List Instr };

    fn code(&self) -> &[Instr]
        ensures { result.now ≡ code self.now };

    /// The number of the first instruction that is this label.
    fn place(&self, label: u32) -> Option<usize>
        ensures { result ≡ label_place (code self.now) label };
}

/// A code that is searched from its front for each label. It takes no memory.
#[derive(Drop)]
pub struct Searched<'a> {
    code: &'a [Instr],
}

impl<'a> Searched<'a> {
    pub fn new(code: &'a [Instr]) -> Searched<'a>
        ensures { result.code.now ≡ code.now }
    {
        Searched { code }
    }
}

impl<'a> Labelled for Searched<'a> {
    ghost code = { λ searched. searched.code.now };

    fn code(&self) -> &[Instr] {
        self.code
    }

    fn place(&self, label: u32) -> Option<usize> {
        label_place(self.code, label)
    }
}

/// A code beside an ordered map of the first places of its labels, so that a look-up takes time logarithmic in their number.
#[derive(Drop)]
pub struct IndexedCode<'a> {
    code: &'a [Instr],
    places: BTreeMap<u32, usize>,
}

impl<'a> Model for IndexedCode<'a> {
    ghost use Rattle.std.specs.Prelude.{List};
    ghost use Rattle.asm_syntax.specs.declared.instr.Instr.{Instr};
    ghost use Rattle.asm_shapes.specs.Labels.{Places};

    ghost Value = { List Instr };

    ghost view = { λ indexed. indexed.code.now };

    ghost invariant = { λ indexed. Places indexed.code.now 0 indexed.places };
}

fn first_places(alloc: Global, code: &[Instr]) -> Result<BTreeMap<u32, usize>, AllocError>
    ensures { IfOk result (λ places. Places code.now 0 places) }
{
    let mut places = BTreeMap::new(alloc);
    for at in (0..code.len()).rev() {
        if let Instr::Label(label) = &code[at] {
            places.insert(*label, at)?;
        }
    }
    Ok(places)
}

impl<'a> IndexedCode<'a> {
    pub fn new(alloc: Global, code: &'a [Instr]) -> Result<IndexedCode<'a>, AllocError>
        ensures { IfOk result (λ indexed. indexed ≡ code.now) }
    {
        let places = first_places(alloc, code)?;
        Ok(IndexedCode { code, places })
    }

    pub fn code(&self) -> &'a [Instr]
        ensures { result.now ≡ self.now }
    {
        self.code
    }

    /// The number of the first instruction that is this label.
    pub fn place(&self, label: u32) -> Option<usize>
        ensures value { result ≡ label_place self.now label }
        ensures inside { IfSome result (λ at. at < length self.now) }
    {
        self.places.get(&label).copied()
    }
}

impl<'a> Labelled for IndexedCode<'a> {
    ghost code = { λ code. code };

    fn code(&self) -> &[Instr] {
        IndexedCode::code(self)
    }

    fn place(&self, label: u32) -> Option<usize> {
        IndexedCode::place(self, label)
    }
}
