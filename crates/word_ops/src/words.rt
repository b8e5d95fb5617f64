// Arithmetic of words, by shifts and sums that wrap.
ghost use Rattle.std.specs.Prelude.{◌≡◌, ◌+◌, ◌/◌, ◌^◌, ◌≤◌, ◌<◌, FitsSigned, int_lt};
ghost use Rattle.std.specs.Int.{w32};
ghost use Rattle.isa_model.specs.Word.{
  HalvesJoin,
  ha,
  hi,
  lo,
  wrapped,
  sext8,
  sext16,
  sext26,
  rotl,
  mask,
  ones_from,
  carrying_sum,
  carry_out,
  signed_word,
  mulh_s,
  mulh_u,
  clz,
};

/// The high half, adjusted for a low half that is sign-extended.
/// PowerPC EABI, the operator `@ha`.
pub fn ha(a: u32) -> u32
    ensures { result ≡ ha a }
{
    a.wrapping_add(0x8000) >> 16
}

/// The high half. PowerPC EABI, the operator `@h`.
pub fn hi(a: u32) -> u32
    ensures { result ≡ hi a }
{
    a >> 16
}

/// The low half. PowerPC EABI, the operator `@l`.
pub fn lo(a: u32) -> u32
    ensures { result ≡ lo a }
{
    a & 0xffff
}

/// The low 8 bits, sign-extended. Power ISA 2.07, extsb.
pub fn sext8(b: u32) -> u32
    ensures { result ≡ sext8 b }
{
    let low = b & 0xff;
    if low < 0x80 { low } else { low + 0xffff_ff00 }
}

/// The low 16 bits, sign-extended. Power ISA 2.07, EXTS of an immediate.
pub fn sext16(h: u32) -> u32
    ensures { result ≡ sext16 h }
{
    let low = h & 0xffff;
    if low < 0x8000 { low } else { low + 0xffff_0000 }
}

/// The low 26 bits, sign-extended. Power ISA 2.07, EXTS of a branch's displacement.
pub fn sext26(h: u32) -> u32
    ensures { result ≡ sext26 h }
{
    let low = h & 0x03ff_ffff;
    if low < 0x0200_0000 {
        low
    } else {
        low + 0xfc00_0000
    }
}

/// The address itself, joined from its two halves as `@ha` and `@l` give them.
pub fn halves_joined(a: u32) -> u32
    ensures same { result ≡ a }
    ensures law { HalvesJoin }
{
    (ha(a) << 16).wrapping_add(sext16(lo(a)))
}

/// Rotates left by `n` modulo 32. Power ISA 2.07, ROTL32.
#[tactic(auto, using(crate::proofs::WordLaws::rotated_below))]
pub fn rotl(a: u32, n: u32) -> u32
    ensures { result ≡ rotl a n }
{
    let n = n % 32;
    if n == 0 {
        a
    } else {
        (a << n) + (a >> (32 - n))
    }
}

/// A power of two, at most 2^32.
#[tactic(auto, using(crate::proofs::WordLaws::power_within))]
pub fn power_of_two(n: u32) -> u64
    requires { n ≤ 32 }
    ensures value { result ≡ 2 ^ n }
    ensures range { result ≤ 2 ^ 32 }
{
    1 << n
}

/// Ones from the bit `mb` to the lowest, and none from 32 on.
fn ones_from(mb: u64) -> u64
    ensures value { result ≡ ones_from mb }
    ensures range { result < 2 ^ 32 }
{
    if mb < 32 { (1 << (32 - mb)) - 1 } else { 0 }
}

/// Ones from the bit `mb` to the bit `me`, bit 0 the highest, around the end where `mb` is above `me`.
/// A number of 32 or more is behind the lowest bit. Power ISA 2.07, MASK.
#[tactic(auto, using(crate::proofs::WordLaws::power_below))]
pub fn mask(mb: u32, me: u32) -> u32
    ensures { result ≡ mask mb me }
{
    let from_first = ones_from(u64::from(mb));
    let past_last = ones_from(u64::from(me) + 1);
    let ones = if mb <= me {
        from_first - past_last
    } else {
        0xffff_ffff - (past_last - from_first)
    };
    ones as u32
}

/// The sum modulo 2^32, and the carry out. Power ISA 2.07, adde.
pub fn carry_add(a: u32, b: u32, c: bool) -> (u32, bool)
    ensures sum { result.0 ≡ carrying_sum a b c }
    ensures carry { result.1 ≡ carry_out a b c }
{
    let (sum, first) = a.overflowing_add(b);
    let (sum, second) = sum.overflowing_add(u32::from(c));
    (sum, first || second)
}

/// The sum of three words modulo 2^32, and the carry out, which is 0, 1 or 2.
pub fn sum_of_three(x: u32, y: u32, z: u32) -> (u32, u32)
    ensures sum { result.0 ≡ wrapped (x + y + z) }
    ensures carry { result.1 ≡ (x + y + z) / 2 ^ 32 }
{
    let sum = u64::from(x) + u64::from(y) + u64::from(z);
    ((sum & 0xffff_ffff) as u32, (sum >> 32) as u32)
}

/// A word as a number with a sign.
#[tactic(auto, using(crate::proofs::WordLaws::casts))]
fn signed(a: u32) -> i64
    ensures value { result ≡ signed_word a }
    ensures range { FitsSigned w32 result }
{
    i64::from(a.cast_signed())
}

/// Whether a word is below another, both with a sign. Power ISA 2.07, cmpw.
pub fn is_less_signed(a: u32, b: u32) -> bool
    ensures { result ≡ int_lt (signed_word a) (signed_word b) }
{
    a.cast_signed() < b.cast_signed()
}

/// The high word of the signed product. Power ISA 2.07, mulhw.
#[tactic(auto, using(crate::proofs::WordLaws::casts))]
pub fn mulh_s(a: u32, b: u32) -> u32
    ensures { result ≡ mulh_s a b }
{
    let product = signed(a) * signed(b);
    (product.cast_unsigned() >> 32) as u32
}

/// The high word of the unsigned product. Power ISA 2.07, mulhwu.
pub fn mulh_u(a: u32, b: u32) -> u32
    ensures { result ≡ mulh_u a b }
{
    ((u64::from(a) * u64::from(b)) >> 32) as u32
}

/// The number of leading zeros, 32 for 0. Power ISA 2.07, cntlzw.
#[tactic(auto, using(crate::proofs::WordLaws::leading_zeros_is_clz))]
pub fn clz(a: u32) -> u32
    ensures { result ≡ clz a }
{
    a.leading_zeros()
}
