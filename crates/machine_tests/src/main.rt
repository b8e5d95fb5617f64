//! Runs the assembly machine over the linked units of each case, and prints its calls and its end.
//!
//! A case is lines of `test_units` before an empty one. Besides it has `case TITLE`, `replies ITEMS` (what a file of replies has), `steps N`
//! and for each block that is looked up `home BLOCK`. The lines `shared` and what follows it up to an empty one stand in each later case
//! that is one line `code ITEMS`, behind a function `main` of this code; it has 100 steps and the replies 11, 17 and 34 as a pair, 0, and 0.
//!
//! Printed are the calls, each with the key of its function, its values and the bytes of the buffers that it read, and the end; and but
//! for shared cases how many frames were made, the most bytes that frames had together, and what the blocks are.
#![tactic(auto)]

mod cases;
mod run;

use call_bytes::bytes::CallBytes;
use cases::{Case, told};
use std::io;

fn main(rt: HostRuntime) -> io::Result<()> {
    let alloc = rt.alloc();
    let mut bytes = CallBytes::new(alloc)?;
    let mut lines = Vec::new(alloc);
    let mut shared = Vec::new(alloc);
    for line in rt.lines(alloc) {
        let line = line?;
        if !line.is_empty() {
            lines.push(line)?;
        } else if lines
            .first()
            .is_some_and(|first| first.as_str() == "shared")
        {
            shared = lines;
            lines = Vec::new(alloc);
        } else {
            let case = Case::of(alloc, &lines, &shared)?;
            let text = told(alloc, &case, &mut bytes)?;
            println!(rt; "{text}")?;
            lines.clear();
        }
    }
    Ok(())
}
