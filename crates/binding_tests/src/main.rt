//! Binds the linked units of each case to the symbols of its image, and prints the address of each key, or the fault.
//!
//! A case is lines of `test_units` and of `test_images` before an empty one. Besides it has `case TITLE` and `pins ITEMS` (of the layout's
//! `pins`). Its entry is `main`. Of a fault are printed its number, the key, and how many candidates agree where several do.
#![tactic(auto)]

#[cfg(test)]
mod addresses;
mod bound;
#[cfg(test)]
mod many;

use bound::told;
use std::io;

fn main(rt: HostRuntime) -> io::Result<()> {
    let alloc = rt.alloc();
    let mut lines = Vec::new(alloc);
    for line in rt.lines(alloc) {
        let line = line?;
        if line.is_empty() {
            let text = told(alloc, &lines)?;
            println!(rt; "{text}")?;
            lines.clear();
        } else {
            lines.push(line)?;
        }
    }
    Ok(())
}
