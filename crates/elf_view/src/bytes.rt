// Big-endian numbers and parts of a list of bytes, by their places.
ghost use Rattle.std.specs.Prelude.{◌≡◌, ◌≤◌, ◌<◌, ◌+◌, length};
ghost use Rattle.image_model.specs.Bytes.{half, word, lies_in, part};

use byteorder::{BigEndian, ByteOrder};

#[tactic(auto, using(crate::proofs::Numbers::half_read))]
pub fn half_at(bytes: &[u8], at: usize) -> u16
    requires { at + 2 ≤ length bytes.now }
    ensures { result ≡ half bytes.now at }
{
    BigEndian::read_u16(&bytes[at..])
}

#[tactic(auto, using(crate::proofs::Numbers::word_read))]
pub fn word_at(bytes: &[u8], at: usize) -> u32
    requires { at + 4 ≤ length bytes.now }
    ensures { result ≡ word bytes.now at }
{
    BigEndian::read_u32(&bytes[at..])
}

pub fn lies_in(bytes: &[u8], at: u32, n: u32) -> bool
    ensures { result ≡ lies_in bytes.now at n }
{
    at as usize + n as usize <= bytes.len()
}

/// The `n` bytes at a place. Where there are none, the place may be past the end.
pub fn part(bytes: &[u8], at: usize, n: usize) -> &[u8]
    requires { 0 < n → at + n ≤ length bytes.now }
    ensures { result.now ≡ part bytes.now at n }
{
    if n == 0 {
        &bytes[..0]
    } else {
        &bytes[at..at + n]
    }
}
