//! Numbers among the words.

ghost use Rattle.std.specs.Prelude.{◌≡◌, ◌≤◌, ◌<◌, ◌^◌, IfSome, IsTrue, length};
ghost use Rattle.std.specs.List.{list_all};
ghost use Rattle.commands.specs.Numbers.{address_of, decimal_of, digit, digits_number, is_digit, is_digit_byte, number_of};

/// Greatest number of digits of a decimal number.
const MOST_DECIMAL_DIGITS: usize = 10;

/// Greatest number of digits of an address.
const MOST_ADDRESS_DIGITS: usize = 8;

fn is_digit_byte(byte: u8) -> bool
    ensures { result ≡ is_digit_byte byte }
{
    matches!(byte, b'0'..=b'9' | b'A'..=b'F' | b'a'..=b'f')
}

fn digit(byte: u8) -> u8
    requires { IsTrue (is_digit_byte byte) }
    ensures value { result ≡ digit byte }
    ensures bound { result < 16 }
{
    if byte <= b'9' {
        byte - b'0'
    } else if byte <= b'F' {
        byte - b'A' + 10
    } else {
        byte - b'a' + 10
    }
}

fn is_digit(base: u64, byte: u8) -> bool
    ensures { result ≡ is_digit base byte }
{
    is_digit_byte(byte) && u64::from(digit(byte)) < base
}

fn are_digits(base: u64, text: &[u8]) -> bool
    ensures { result ≡ list_all (is_digit base) text.now }
{
    text.iter().all(|byte| is_digit(base, *byte))
}

#[tactic(auto, using(crate::proofs::DigitLemmas::room, crate::proofs::DigitLemmas::next_digit))]
fn digits_number(base: u64, digits: &[u8]) -> u64
    requires base { base ≤ 16 }
    requires few { length digits.now ≤ 10 }
    requires digits { IsTrue (list_all (is_digit base) digits.now) }
    ensures value { result ≡ digits_number base digits.now }
    ensures bound { result < 16 ^ length digits.now }
{
    let mut number = 0u64;
    for byte in digits {
        number = number * base + u64::from(digit(*byte));
    }
    number
}

#[tactic(auto, using(crate::proofs::DigitLemmas::more_digits))]
fn number_of(base: u64, most: usize, text: &[u8]) -> Option<u64>
    requires base { base ≤ 16 }
    requires few { most ≤ 10 }
    ensures value { result ≡ number_of base most text.now }
    ensures bound { IfSome result (λ n. n < 16 ^ most) }
{
    if 1 <= text.len() && text.len() <= most && are_digits(base, text) {
        Some(digits_number(base, text))
    } else {
        None
    }
}

/// A decimal number up to the greatest one.
pub fn decimal_of(greatest: u32, text: &[u8]) -> Option<u32>
    ensures { result ≡ decimal_of greatest text.now }
{
    let number = number_of(10, MOST_DECIMAL_DIGITS, text)?;
    if number <= u64::from(greatest) {
        Some(number as u32)
    } else {
        None
    }
}

/// The address of a word of an image.
#[tactic(auto, using(crate::proofs::DigitLemmas::eight_digits))]
pub fn address_of(text: &[u8]) -> Option<u32>
    ensures { result ≡ address_of text.now }
{
    match text {
        [b'0', b'x', digits @ ..] => {
            let number = number_of(16, MOST_ADDRESS_DIGITS, digits)?;
            if number % 4 == 0 {
                Some(number as u32)
            } else {
                None
            }
        }
        _ => None,
    }
}
