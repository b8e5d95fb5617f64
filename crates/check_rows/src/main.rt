//! Checks small programs against their images, and prints what `check` and `bound` tell of each.
//!
//! A program is lines before an empty one: `row TITLE`; of each unit `unit NAME` and then `function NAME CODE`, `local NAME CODE` for a
//! static one, `variable NAME STATIC WRITABLE ALIGN INIT` and `external NAME SIGNATURE`, with `;` between the instructions of a code; and
//! the lines of `test_images` on a layout and an image. Printed are the title, the account or the place that fails, and in a second line
//! what is told of the keys alone. Where the units do not link, the number of the fault stands behind the title.
#![tactic(auto)]

mod answers;
mod program;
mod telling;

use answers::told;
use std::io;

fn main(rt: HostRuntime) -> io::Result<()> {
    let alloc = rt.alloc();
    let mut lines = Vec::new(alloc);
    for line in rt.lines(alloc) {
        let line = line?;
        if line.is_empty() {
            let text = told(alloc, &lines)?;
            println!(rt; "{text}")?;
            lines.clear();
        } else {
            lines.push(line)?;
        }
    }
    Ok(())
}
