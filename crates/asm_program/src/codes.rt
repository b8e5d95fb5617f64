//! Borrowed names with a number made of their bytes, by which most of two names are told apart in one step.

ghost use Rattle.std.specs.Prelude.{◌≡◌};
ghost use Rattle.asm_program.specs.Codes.{name_code};

/// The prime of FNV hashes of 64 bits.
const FACTOR: u64 = 0x100_0000_01b3;

/// The code of a name. Two names may have one code, so an order needs the bytes too.
pub fn name_code(name: &[u8]) -> u64
    ensures { result ≡ name_code name.now }
{
    let mut code = 0u64;
    for byte in name {
        code = code.wrapping_mul(FACTOR).wrapping_add(u64::from(*byte));
    }
    code
}

/// In the order of codes, and then of bytes.
#[derive(Clone, Copy, PartialEq, Eq, PartialOrd, Ord)]
pub struct CodedName<'u> {
    pub code: u64,
    pub name: &'u [u8],
    pub ghost coded: { code ≡ name_code name.now },
}

impl<'u> CodedName<'u> {
    pub fn new(name: &'u [u8]) -> CodedName<'u>
        ensures { result.name.now ≡ name.now }
    {
        CodedName {
            code: name_code(name),
            name,
        }
    }
}
