//! The external functions by their addresses, and the events of their calls.

ghost use Rattle.std.specs.Prelude.{◌≡◌, ℕ, IsTrue, None, IfSome, IfOk, OnOk, OnErr};
ghost use Rattle.std.specs.Option.{option_copied};
ghost use Rattle.asm_shapes.specs.Signatures.{is_valid_sig};
ghost use Rattle.ppc_machine.specs.Externals.{external_at, Adds};

use asm_syntax::unit::{BufferList, Sig, WidthList};
use std::alloc::{AllocError, Global};
use std::collections::BTreeMap;
use std::marker::Model;

/// An external function that may be called: its number, and what it takes and gives.
#[derive(Drop)]
pub struct External {
    pub number: u32,
    pub sig: Sig,
}

/// A call of an external function: its number and the words of its arguments, the others 0.
#[derive(Clone, Copy, Debug, PartialEq, Eq, Drop)]
pub struct Event {
    pub number: u32,
    pub count: u8,
    pub words: [u32; 8],
}

/// The external functions by their addresses.
#[derive(Drop)]
pub struct ExtTable {
    alloc: Global,
    entries: BTreeMap<u32, External>,
}

impl Model for ExtTable {
    ghost use Rattle.ppc_machine.specs.Externals.{Table, IsTable};

    ghost Value = { Table };

    ghost view = { λ t. t.entries.entries };

    ghost invariant = { λ t. IsTable t.entries.entries };
}

fn copy_of(alloc: Global, sig: &Sig) -> Result<Sig, AllocError>
    ensures { IfOk result (λ s. s ≡ sig.now) }
{
    Ok(Sig {
        args: WidthList::from_vec(Vec::from_slice(alloc, sig.args.items())?),
        result: sig.result,
        buffers: BufferList::from_vec(Vec::from_slice(alloc, sig.buffers.items())?),
    })
}

impl ExtTable {
    pub fn new(alloc: Global) -> ExtTable
        ensures { (a : ℕ) → external_at result a ≡ None }
    {
        ExtTable {
            alloc,
            entries: BTreeMap::new(alloc),
        }
    }

    /// The external function with this number is at an address.
    pub fn add(&mut self, addr: u32, number: u32, sig: &Sig) -> Result<(), AllocError>
        requires free { external_at self.old addr ≡ None }
        requires sig { IsTrue (is_valid_sig sig.now) }
        ensures added { OnOk result (Adds self.old self.new addr (record { number = number; sig = sig.now })) }
        ensures failed { OnErr result (self.new ≡ self.old) }
    {
        let sig = copy_of(self.alloc, sig)?;
        let _ = self.entries.insert(addr, External { number, sig })?;
        Ok(())
    }

    /// The external function at an address.
    pub fn at(&self, addr: u32) -> Option<&External>
        ensures value { option_copied result ≡ external_at self.now addr }
        ensures sig { IfSome result (λ x. IsTrue (is_valid_sig x.now.sig)) }
    {
        self.entries.get(&addr)
    }
}
