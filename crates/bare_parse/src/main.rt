//! Reads each file that its words name into a tree of JSON, and prints how many trees were read.
//!
//! The bare cost of parsing, beside which bench/run.py shows that of `check`. A tree is made by the call that `json_tree` makes, and
//! dropped before the next file is read.
#![tactic(auto)]

use serde_json::Value;
use std::alloc::{AllocError, Global};
use std::{env, fs, io};

/// Whether bytes are JSON.
fn is_tree(alloc: Global, bytes: &[u8]) -> Result<bool, AllocError> {
    match Value::from_slice(alloc, bytes) {
        Ok(_) => Ok(true),
        Err(error) => {
            if error.is_memory() {
                return Err(AllocError);
            }
            Ok(false)
        }
    }
}

fn main(rt: HostRuntime) -> io::Result<()> {
    let alloc = rt.alloc();
    let mut trees = 0u64;
    for path in env::args(&rt)?.skip(1) {
        let bytes = fs::read(&rt, path.as_str())?;
        if is_tree(alloc, bytes.as_slice())? {
            trees = trees.saturating_add(1);
        }
    }
    println!(rt; "{trees}")
}
