//! Executables as lines of text.

use crate::image::TestImage;
use std::alloc::Global;

fn number(word: Option<&str>) -> Option<u32> {
    u32::from_str_radix(word?, 16).ok()
}

fn short_number(word: Option<&str>) -> Option<u16> {
    u16::try_from(number(word)?).ok()
}

fn byte_number(word: Option<&str>) -> Option<u8> {
    u8::try_from(number(word)?).ok()
}

/// `ADDRESS FLAGS SIZE`, and then the bytes that the file holds, as pairs of digits.
fn add_segment(alloc: Global, image: &mut TestImage, line: &str) -> Option<()> {
    let mut words = line.split_whitespace();
    let vaddr = number(words.next())?;
    let flags = number(words.next())?;
    let memsz = number(words.next())?;
    let mut bytes = Vec::new(alloc);
    for word in words {
        let some = hex::decode(alloc, word).ok()?;
        bytes.extend_from_slice(&some).ok()?;
    }
    image.add_segment(vaddr, flags, memsz, &bytes).ok()
}

/// `VALUE INFO SHNDX NAME`.
fn add_symbol(image: &mut TestImage, line: &str) -> Option<()> {
    let mut words = line.split_whitespace();
    let value = number(words.next())?;
    let info = byte_number(words.next())?;
    let shndx = short_number(words.next())?;
    let name = words.next()?;
    image.add_symbol(name.as_bytes(), value, info, shndx).ok()
}

fn add_line(alloc: Global, image: &mut TestImage, line: &str) -> Option<()> {
    if line.is_empty() {
        return Some(());
    }
    if let Some(rest) = line.strip_prefix("segment ") {
        return add_segment(alloc, image, rest);
    }
    add_symbol(image, line.strip_prefix("symbol ")?)
}

/// The executable of a text: `entry ADDRESS`, and then lines of segments and symbols, or empty ones. Numbers are hexadecimal.
/// ```text
/// entry 10010000
/// segment 10010000 5 8 38600007 4e800020
/// symbol 10010000 12 fff1 main
/// ```
/// None for a line of another form, and for want of memory.
pub fn image_of(alloc: Global, text: &str) -> Option<Vec<u8>> {
    let (entry, rest) = text.strip_prefix("entry ")?.split_once('\n')?;
    let mut image = TestImage::new(alloc, number(Some(entry))?).ok()?;
    for line in rest.split('\n') {
        add_line(alloc, &mut image, line)?;
    }
    image.file(alloc).ok()
}
