//! The program: the commands over files of a folder and standard output.
#![tactic(auto)]

mod answer;
#[cfg(test)]
mod code_rows;
#[cfg(test)]
mod data_rows;
mod edge;
#[cfg(test)]
mod refused_rows;
#[cfg(test)]
mod rows;
#[cfg(test)]
mod run_rows;
#[cfg(test)]
mod tests;
#[cfg(test)]
mod upgrade_rows;

use answer::valex;
use edge::{DirStore, StdoutSink};
use std::env;
use std::process::ExitCode;

fn main(rt: HostRuntime) -> ExitCode {
    let alloc = rt.alloc();
    let words = match env::args(&rt) {
        Ok(args) => args.skip(1).collect::<Vec<String>>(alloc),
        Err(_) => Ok(Vec::new(alloc)),
    };
    let Ok(words) = words else {
        return ExitCode::from(6);
    };
    let mut store = DirStore::new(&rt, alloc);
    let mut out = StdoutSink::new(rt.stdout());
    ExitCode::from(valex(alloc, words.as_slice(), &mut store, &mut out))
}
