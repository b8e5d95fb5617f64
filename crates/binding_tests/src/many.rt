//! Sixteen units of 4,096 functions each, and an image that has 800,000 symbols of another name before the functions' own.

use crate::bound::{binding, layout};
use std::alloc::{AllocError, Global};
use std::test::Fail;
use test_images::image::TestImage;
use test_units::lines::{dumps, read_all};

const UNITS: u32 = 16;

const UNIT_FUNCTIONS: u32 = 4_096;

const COUNT: u32 = UNITS * UNIT_FUNCTIONS;

fn lines(alloc: Global) -> Result<Vec<String>, AllocError> {
    let mut lines = Vec::new(alloc);
    for k in 0..COUNT {
        if k % UNIT_FUNCTIONS == 0 {
            lines.push(format!(in alloc; "unit u{k}")?)?;
        }
        lines.push(format!(in alloc; "function f{k} [\"blr\"]")?)?;
    }
    Ok(lines)
}

/// The functions stand one behind another from 10000000 on.
fn image(alloc: Global) -> Result<Vec<u8>, AllocError> {
    let mut image = TestImage::new(alloc, 0x1000_0000)?;
    for _ in 0..800_000 {
        image.add_symbol(b"s", 0x1000_0000, 0x10, 0xfff1)?;
    }
    for k in 0..COUNT {
        let name = format!(in alloc; "f{k}")?;
        image.add_symbol(name.as_bytes(), 0x1000_0000 + 4 * k, 0x10, 0xfff1)?;
    }
    image.file(alloc)
}

#[test]
fn keys_are_found_among_many_symbols(rt: HostRuntime) -> Result<(), Fail> {
    let alloc = rt.alloc();
    let units = read_all(alloc, &dumps(alloc, &lines(alloc)?)?)?;
    let layout = layout(alloc, "f0", "").ok_or("a layout")?;
    let file = image(alloc)?;
    let binding = binding(alloc, &units, &layout, &file).ok_or("a program")??;
    assert_eq!(rt; binding.count(), COUNT);
    for (k, address) in binding.addresses().iter().enumerate() {
        assert_eq!(rt; *address as usize, 0x1000_0000 + 4 * k);
    }
    Ok(())
}
