//! What the instructions of the Power ISA do to registers and memory, as rows of effects: types, the meaning of each operation on words, and the table.
#![tactic(auto)]

ghost use Rattle.std.specs.Prelude.{◌≡◌, ◌≤◌};
ghost use Rattle.effect_model.specs.Forms.{width};

/// A register, or a bit of one, that an instruction reads or writes.
#[derive(Clone, Copy, Drop)]
pub enum Place {
    /// A general register.
    Gpr(u8),
    /// A bit of the condition register, bit 0 the highest.
    Bit(u8),
    /// The link register.
    Lr,
    /// The count register.
    Ctr,
    /// The carry, a bit of XER.
    Ca,
    /// The summary overflow, a bit of XER.
    So,
    /// No register: what is written here is lost.
    Unused,
}

/// What an effect reads. The parts of a symbol's address carry its key and the offset from it.
#[derive(Clone, Copy, Drop)]
pub enum Operand {
    At(Place),
    Number(u32),
    /// The low half of the address. PowerPC EABI, the operator `@l`.
    Lo(u32, i32),
    /// The adjusted high half, in the place of the high half. PowerPC EABI, the operator `@ha`.
    Ha(u32, i32),
    /// The displacement from the base of a small-data area. PowerPC EABI, the operator `@sda21`.
    Sda(u32, i32),
    /// A part of an address in an instruction that does not take it.
    Undefined,
}

/// An operation on words. Each reads up to three and gives up to three.
#[derive(Clone, Copy, Drop)]
pub enum Op {
    Sum,
    /// The second operand less the first, as subf has them.
    Difference,
    CarryingSum,
    /// The complement of the first operand, the second and the third. Gives the carry too.
    CarryingDifference,
    LowProduct,
    HighProduct,
    HighProductUnsigned,
    Quotient,
    QuotientUnsigned,
    And,
    AndNot,
    Or,
    OrNot,
    Xor,
    Nor,
    Nand,
    Equivalence,
    ShiftLeft,
    ShiftRight,
    ShiftRightSigned,
    /// Rotation by the shift, under the mask from the first bit to the last.
    Rotation(u8, u8, u8),
    /// The same, put into the second operand.
    Insertion(u8, u8, u8),
    LeadingZeros,
    SignedHalf,
    SignedByte,
    Comparison,
    ComparisonUnsigned,
    BitEquivalence,
    Copy,
}

/// The operation, what it reads, and where its results go.
#[derive(Clone, Copy, Drop)]
pub struct Effect {
    pub op: Op,
    pub x: Operand,
    pub y: Operand,
    pub z: Operand,
    pub first: Place,
    pub second: Place,
    pub third: Place,
}

/// Effects, one after another: each reads what the earlier ones wrote.
#[derive(Clone, Copy, Drop)]
pub enum Effects {
    Nothing,
    One(Effect),
    Two(Effect, Effect),
    Three(Effect, Effect, Effect),
}

/// The words that an operation gives.
#[derive(Clone, Copy, Drop)]
pub struct Results {
    pub first: u32,
    pub second: u32,
    pub third: u32,
}

/// A row of the table: the operation, what it reads third, and where its second result goes.
#[derive(Clone, Copy, Drop)]
pub struct Row {
    pub op: Op,
    pub z: Operand,
    pub second: Place,
}

/// How many bytes are loaded or stored, and how.
#[derive(Clone, Copy, Drop)]
pub enum Form {
    Word,
    Half,
    Byte,
    /// A half word, sign-extended.
    SignedHalf,
    /// With the least byte first.
    ReversedWord,
    ReversedHalf,
}

/// A constant operand, with a symbol's name resolved to its key.
#[derive(Clone, Copy, Drop)]
pub enum Constant {
    Int(i32),
    Lo(u32, i32),
    Ha(u32, i32),
    Sda(u32, i32),
}

/// What an instruction does.
#[derive(Clone, Copy, Drop)]
pub enum Action {
    Work(Effects),
    /// An effect that has no result where the division has none.
    Divide(Effect),
    /// The two parts of the address, and where the value goes.
    Load(Form, Operand, Operand, Place),
    /// The value's place, the two parts of the address, and where the address goes.
    Store(Form, Place, Operand, Operand, Place),
    /// The whole condition register goes to a place.
    MoveFromCr(Place),
    /// It changes the place of the machine: a branch, or the trap.
    Jump,
}

impl Form {
    /// The bytes that are loaded or stored.
    pub fn width(self) -> u32
        ensures value { result ≡ width self }
        ensures range { result ≤ 4 }
    {
        match self {
            Form::Word | Form::ReversedWord => 4,
            Form::Half | Form::SignedHalf | Form::ReversedHalf => 2,
            Form::Byte => 1,
        }
    }
}
