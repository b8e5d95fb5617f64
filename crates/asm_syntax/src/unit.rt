//! Variables, externals and whole compilation units.

ghost use Rattle.std.specs.Prelude.{◌≡◌, ◌≤◌, ◌↔◌, IsTrue};
ghost use Rattle.asm_syntax.specs.Sigs.{same_sig};
ghost use Rattle.asm_syntax.specs.Sizes.{init_size, init_symbol, limited_size, width_words};

use crate::instr::Function;
use crate::listed::Listed;
use crate::name::Name;
use crate::symbol::Symbol;
use limits::MOST_VARIABLE_BYTES;

pub type ByteList = Listed<u8>;

pub type InitList = Listed<Init>;

pub type WidthList = Listed<Width>;

pub type BufferList = Listed<Buffer>;

/// The bytes of each buffer that is filled.
pub type FillList = Listed<ByteList>;

pub type FunctionList = Listed<Function>;

pub type VariableList = Listed<Variable>;

pub type ExternalList = Listed<External>;

pub type Units = Listed<Unit>;

pub type Replies = Listed<Reply>;

/// An item of a variable's initialised data, big-endian.
#[derive(Debug, Drop)]
pub enum Init {
    Int8(u8),
    Int16(u16),
    Int32(u32),
    Bytes(ByteList),
    /// So many zero bytes.
    Space(u32),
    /// A symbol's address plus an offset, one word.
    Addr(Name, i32),
}

#[derive(Debug, Drop)]
pub struct Variable {
    pub name: Name,
    pub is_static: bool,
    pub writable: bool,
    /// In bytes.
    pub align: u8,
    pub init: InitList,
}

/// The width of an argument or a result: one register, or a pair.
#[derive(Clone, Copy, Debug, PartialEq, Eq, Drop)]
pub enum Width {
    Word,
    Long,
}

impl Width {
    /// The number of words, so of registers.
    pub fn words(self) -> u8
        ensures value { result ≡ width_words self }
        ensures range { result ≤ 2 }
    {
        match self {
            Width::Word => 1,
            Width::Long => 2,
        }
    }
}

/// The bytes of a buffer: a number, or the word of the argument with this place, from 0.
#[derive(Clone, Copy, Debug, PartialEq, Eq, Drop)]
pub enum Size {
    Fixed(u32),
    Arg(u8),
}

/// A buffer that an external function reads or fills.
#[derive(Clone, Copy, Debug, PartialEq, Eq, Drop)]
pub struct Buffer {
    pub fills: bool,
    /// The place of the argument that points to it, from 0.
    pub arg: u8,
    pub size: Size,
}

/// What an external function takes and gives (PowerPC EABI, "Parameter Passing"), and the buffers that its arguments point to.
#[derive(Debug, PartialEq, Eq, Drop)]
pub struct Sig {
    pub args: WidthList,
    pub result: Option<Width>,
    pub buffers: BufferList,
}

impl Sig {
    /// Whether both take and give the same, and have the same buffers.
    pub fn is_same_as(&self, other: &Sig) -> bool
        ensures value { result ≡ same_sig self.now other.now }
        ensures equal { IsTrue result ↔ (self.now ≡ other.now) }
    {
        self == other
    }
}

/// A symbol that no unit defines. Without a signature it is an object whose address may be taken and that is never called.
#[derive(Debug, Drop)]
pub struct External {
    pub name: Name,
    pub sig: Option<Sig>,
}

#[derive(Debug, Drop)]
pub struct Unit {
    pub name: Name,
    pub functions: FunctionList,
    pub variables: VariableList,
    pub externals: ExternalList,
}

/// What an external call leaves in the registers that a call may change, and in the buffers that it fills.
#[derive(Debug, PartialEq, Eq, Drop)]
pub struct Reply {
    pub r0: u32,
    pub r3: u32,
    pub r4: u32,
    pub r5: u32,
    pub r6: u32,
    pub r7: u32,
    pub r8: u32,
    pub r9: u32,
    pub r10: u32,
    pub r11: u32,
    pub r12: u32,
    pub cr: u32,
    pub ctr: u32,
    pub lr: u32,
    pub xer: u32,
    /// For each buffer that the call fills, in the signature's order.
    pub fills: FillList,
}

impl Init {
    /// In bytes.
    pub fn size(&self) -> u64
        ensures { result ≡ init_size self.now }
    {
        match self {
            Init::Int8(_) => 1,
            Init::Int16(_) => 2,
            Init::Int32(_) | Init::Addr(_, _) => 4,
            Init::Bytes(bytes) => bytes.items().len() as u64,
            Init::Space(n) => u64::from(*n),
        }
    }

    /// The symbol whose address it holds.
    pub fn symbol(&self) -> Option<Symbol<'_>>
        ensures { result ≡ init_symbol self.now }
    {
        match self {
            Init::Addr(name, offset) => Some(Symbol::new(name, *offset)),
            _ => None,
        }
    }
}

/// The size of a variable in bytes. `None` where it has more than `MOST_VARIABLE_BYTES`.
pub fn variable_size(init: &[Init]) -> Option<u32>
    ensures { result ≡ limited_size init.now }
{
    let mut total = 0;
    for item in init {
        let size = item.size();
        if size > u64::from(MOST_VARIABLE_BYTES - total) {
            return None;
        }
        total += size as u32;
    }
    Some(total)
}
