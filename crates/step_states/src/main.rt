//! Reads states of the flat machine, runs some steps from each, and prints what the machine holds then.
//!
//! A line is words in hexadecimal: how many steps, the address of the first instruction, CR, CTR, XER, the 32 general
//! registers, 16 words of memory, and the words of the code. An answer is the next address, the 32 general registers, CR,
//! CTR, LR, CA, SO and the memory, or the number of the fault.
#![tactic(auto)]

mod answers;
mod image;
mod states;

use answers::answer;
use call_bytes::bytes::CallBytes;
use layout_file::read_layout;
use states::{State, words_of};
use std::io;

/// Its stop point and its stack are outside of the states' memory.
const LAYOUT: &str =
    r#"{"valex":"layout","version":1,"entry":"main","stop":"0x20000000","stack":["0x30000000","0x30000020"],"r13":1,"r2":2,"areas":[],"foreign":[],"pins":[]}"#;

fn main(rt: HostRuntime) -> io::Result<()> {
    let alloc = rt.alloc();
    let Ok(layout) = read_layout(alloc, LAYOUT.as_bytes()) else {
        return println!(rt; "no layout");
    };
    let mut bytes = CallBytes::new(alloc)?;
    for line in rt.lines(alloc) {
        let words = words_of(alloc, line?.as_str())?;
        match State::of(words.as_slice()) {
            Some(state) => {
                let text = answer(alloc, &state, &layout, &mut bytes)?;
                println!(rt; "{text}")?;
            }
            None => println!(rt; "no state")?,
        }
    }
    Ok(())
}
