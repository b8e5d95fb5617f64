//! Values, and their sums.

ghost use Rattle.std.specs.Prelude.{◌≡◌};
ghost use Rattle.asm_mem.specs.Values.{add_word, sum_of};

/// A word, or what stands for an address that no one knows before the program is linked.
#[derive(Clone, Copy, Debug, PartialEq, Eq, Drop)]
pub enum Val {
    /// No value that is known.
    Undef,
    Int(u32),
    /// A block's number, and an offset in it.
    Ptr(u32, u32),
    /// A function's number, and an instruction of it.
    Code(u32, u32),
    /// An external's key, and an offset from its address.
    Ext(u32, u32),
    /// Where the program's caller goes on.
    Stop,
    /// The high half of the address of a key at an offset, adjusted (`@ha`), and an added word.
    Ha(u32, i32, u32),
}

/// The sum of a value and a word. Code and Stop plus another word than 0 are no value.
pub fn add_word(v: Val, n: u32) -> Val
    ensures { result ≡ add_word v n }
{
    match v {
        Val::Int(x) => Val::Int(x.wrapping_add(n)),
        Val::Ptr(b, o) => Val::Ptr(b, o.wrapping_add(n)),
        Val::Ext(k, o) => Val::Ext(k, o.wrapping_add(n)),
        Val::Ha(k, o, m) => Val::Ha(k, o, m.wrapping_add(n)),
        Val::Code(f, i) => { if n == 0 { Val::Code(f, i) } else { Val::Undef } }
        Val::Stop => { if n == 0 { Val::Stop } else { Val::Undef } }
        Val::Undef => Val::Undef,
    }
}

/// The sum of two values, one of which is a word.
pub fn sum_of(u: Val, v: Val) -> Val
    ensures { result ≡ sum_of u v }
{
    match u {
        Val::Int(x) => add_word(v, x),
        Val::Undef
        | Val::Ptr(_, _)
        | Val::Code(_, _)
        | Val::Ext(_, _)
        | Val::Stop
        | Val::Ha(_, _, _) => {
            match v {
                Val::Int(n) => add_word(u, n),
                Val::Undef
                | Val::Ptr(_, _)
                | Val::Code(_, _)
                | Val::Ext(_, _)
                | Val::Stop
                | Val::Ha(_, _, _) => Val::Undef,
            }
        }
    }
}
