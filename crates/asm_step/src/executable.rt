//! What the machine reads of a linked program.

ghost use Rattle.std.specs.Prelude.{◌≡◌, ◌≤◌, ◌<◌, ◌+◌, ◌++◌, ◌∷◌, [], true, length, slice_get, slice_index_or, unwrap_or, IfOk, IfSome};
ghost use Rattle.std.specs.Prelude.{IsSome, OnOk, OnErr};
ghost use Rattle.std.specs.Option.{option_copied};
ghost use Rattle.asm_syntax.specs.Instructions.{label_place};
ghost use Rattle.call_bytes.specs.Calls.{registers_of_arguments};
ghost use Rattle.asm_step.specs.Callable.{FitsInstr, IsCallable};
ghost use Rattle.asm_shapes.specs.Shapes.{HasShape};
ghost use Rattle.asm_shapes.specs.Signatures.{is_valid_sig};
ghost use Rattle.asm_step.specs.LinkedCode.{instruction, is_target, key_at, place_of_label, sig_of};

use asm_mem::value::Val;
use asm_shapes::IndexedCode;
use asm_syntax::instr::Instr;
use asm_syntax::unit::Sig;
use call_bytes::arguments::Arguments;
use limits::MOST_INSTRUCTIONS;
use link_model::key::KeyKind;
use std::alloc::{AllocError, Global};
use std::marker::Model;

/// The code of a function beside the places of its labels, and for each instruction the key of the symbol that it names.
#[derive(Drop)]
pub struct IndexedRoutine<'u> {
    code: IndexedCode<'u>,
    keys: Vec<u32>,
}

impl<'u> Model for IndexedRoutine<'u> {
    ghost use Rattle.std.specs.Prelude.{◌≤◌, length};
    ghost use Rattle.limits.specs.declared.TheConstants.{MOST_INSTRUCTIONS};
    ghost use Rattle.asm_shapes.specs.Shapes.{HasShape};
    ghost use Rattle.asm_step.specs.LinkedCode.{Routine};

    ghost Value = { Routine };

    ghost view = { λ r. record { code = r.code; keys = r.keys.items } };

    ghost invariant = { λ r. HasShape r.code × (length r.code ≤ MOST_INSTRUCTIONS) };
}

impl<'u> IndexedRoutine<'u> {
    pub fn new(
        alloc: Global,
        code: &'u [Instr],
        keys: Vec<u32>,
    ) -> Result<IndexedRoutine<'u>, AllocError>
        requires shape { HasShape code.now }
        requires size { length code.now ≤ MOST_INSTRUCTIONS }
        ensures { IfOk result (λ r. r ≡ record { code = code.now; keys = keys.items }) }
    {
        let code = IndexedCode::new(alloc, code)?;
        Ok(IndexedRoutine { code, keys })
    }

    fn instruction(&self, i: u32) -> Option<&'u Instr>
        ensures value { option_copied result ≡ slice_get self.now.code i }
        ensures fits { IfSome result (λ x. FitsInstr x.now) }
        ensures few { IsSome result → i < MOST_INSTRUCTIONS }
    {
        let code = self.code.code();
        let i = i as usize;
        if i < code.len() { Some(&code[i]) } else { None }
    }

    fn key(&self, i: u32) -> u32
        ensures { result ≡ slice_index_or self.now.keys i 0 }
    {
        let i = i as usize;
        if i < self.keys.len() { self.keys[i] } else { 0 }
    }

    fn place_of_label(&self, label: u32) -> u32
        ensures { result ≡ unwrap_or (label_place self.now.code label) 0 }
    {
        match self.code.place(label) {
            Some(at) => at as u32,
            None => 0,
        }
    }
}

/// How an external function is called.
#[derive(Drop)]
pub struct Callee<'u> {
    sig: &'u Sig,
    arguments: Arguments,
}

impl<'u> Model for Callee<'u> {
    ghost use Rattle.std.specs.Prelude.{◌≡◌};
    ghost use Rattle.asm_syntax.specs.declared.unit.Sig.{Sig};
    ghost use Rattle.call_bytes.specs.Calls.{registers_of_arguments};
    ghost use Rattle.asm_step.specs.Callable.{IsCallable};

    ghost Value = { Sig };

    ghost view = { λ c. c.sig.now };

    ghost invariant = { λ c. (c.arguments ≡ registers_of_arguments c.sig.now.args) × IsCallable c.sig.now };
}

impl<'u> Callee<'u> {
    #[tactic(auto, using(crate::proofs::Callable::callable))]
    pub fn new(sig: &'u Sig) -> Callee<'u>
        requires { is_valid_sig sig.now ≡ true }
        ensures { result ≡ sig.now }
    {
        let arguments = Arguments::new(sig.args.items());
        Callee { sig, arguments }
    }

    pub fn sig(&self) -> &'u Sig
        ensures value { result.now ≡ self.now }
        ensures callable { IsCallable result.now }
    {
        self.sig
    }

    pub fn arguments(&self) -> &Arguments
        ensures { result.now ≡ registers_of_arguments self.now.args }
    {
        &self.arguments
    }
}

/// The functions of a program, by key what it is and how it is called, and how many variables there are.
#[derive(Drop)]
pub struct Executable<'u> {
    routines: Vec<IndexedRoutine<'u>>,
    kinds: Vec<KeyKind>,
    callees: Vec<Option<Callee<'u>>>,
    variables: u32,
}

impl<'u> Model for Executable<'u> {
    ghost use Rattle.asm_step.specs.LinkedCode.{Linked};

    ghost Value = { Linked };

    ghost view = { λ e. record { routines = e.routines.items; kinds = e.kinds.items; sigs = e.callees.items; variables = e.variables } };
}

impl<'u> Executable<'u> {
    /// Of the functions in the order of their numbers, what each key is, and by key how it is called where it is an
    /// external with a signature.
    pub fn new(
        routines: Vec<IndexedRoutine<'u>>,
        kinds: Vec<KeyKind>,
        callees: Vec<Option<Callee<'u>>>,
        variables: u32,
    ) -> Executable<'u>
        ensures { result ≡ record {
          routines = routines.entry.items;
          kinds = kinds.items;
          sigs = callees.entry.items;
          variables = variables;
        } }
    {
        Executable {
            routines,
            kinds,
            callees,
            variables,
        }
    }

    /// By key.
    pub fn kinds(&self) -> &[KeyKind]
        ensures { result.now ≡ self.now.kinds }
    {
        &self.kinds
    }

    pub fn variables(&self) -> u32
        ensures { result ≡ self.now.variables }
    {
        self.variables
    }

    fn routine(&self, f: u32) -> Option<&IndexedRoutine<'u>>
        ensures { option_copied result ≡ slice_get self.now.routines f }
    {
        self.routines.get(f as usize)
    }

    /// The instruction with this number of a function.
    pub fn instruction(&self, f: u32, i: u32) -> Option<&'u Instr>
        ensures value { option_copied result ≡ instruction self.now f i }
        ensures fits { IfSome result (λ x. FitsInstr x.now) }
        ensures few { IsSome result → i < MOST_INSTRUCTIONS }
    {
        match self.routine(f) {
            Some(r) => r.instruction(i),
            None => None,
        }
    }

    /// The key of the symbol that an instruction names, 0 where it names none.
    pub fn key_at(&self, f: u32, i: u32) -> u32
        ensures { result ≡ key_at self.now f i }
    {
        match self.routine(f) {
            Some(r) => r.key(i),
            None => 0,
        }
    }

    /// The place of a label in a function, 0 where it has none.
    pub fn place_of_label(&self, f: u32, label: u32) -> u32
        ensures { result ≡ place_of_label self.now f label }
    {
        match self.routine(f) {
            Some(r) => r.place_of_label(label),
            None => 0,
        }
    }

    /// How an external key is called.
    pub fn callee(&self, key: u32) -> Option<&Callee<'u>>
        ensures { option_copied result ≡ sig_of self.now key }
    {
        match self.callees.get(key as usize) {
            Some(Some(c)) => Some(c),
            _ => None,
        }
    }

    /// Whether control may go to a value.
    pub fn is_target(&self, v: Val) -> bool
        ensures { result ≡ is_target self.now v }
    {
        match v {
            Val::Code(_, _) | Val::Stop => true,
            Val::Ext(key, o) => o == 0 && self.callee(key).is_some(),
            _ => false,
        }
    }
}
