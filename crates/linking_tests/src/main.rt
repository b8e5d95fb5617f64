//! Links the units of each case, and prints what the program tells, or the first fault.
//!
//! A case is lines of `test_units` before an empty one. Besides it has `case TITLE`, `entry NAME`, and for each name that is looked up
//! `meaning UNIT NAME`, with the unit's number. Printed are the counts of units, functions, variables and externals and the entry's key;
//! of each key its kind, its number in that, its unit, its name and its alignment where that is not 1; and the key of each name. Of a
//! fault, its number, its unit and its name are printed.
#![tactic(auto)]

mod told;

use std::io;
use told::told;

fn main(rt: HostRuntime) -> io::Result<()> {
    let alloc = rt.alloc();
    let mut lines = Vec::new(alloc);
    for line in rt.lines(alloc) {
        let line = line?;
        if line.is_empty() {
            let text = told(alloc, &lines)?;
            println!(rt; "{text}")?;
            lines.clear();
        } else {
            lines.push(line)?;
        }
    }
    Ok(())
}
