//! The edge of the program: a store over files, and a sink over a writer.

ghost use Rattle.std.specs.Prelude.{◌≡◌, ◌≤◌, ◌+◌, None, IfOk, vec_len, string_bytes};

use outside::sink::{Sink, SinkFault};
use outside::store::{Store, StoreError};
use std::alloc::Global;
use std::fs::{self, Files};
use std::io::{Read, Write};

/// Bytes are read in pieces of this size.
const PIECE: usize = 4096;

/// The files of the system, by their paths. It does not tell what they hold.
#[derive(Drop)]
pub struct DirStore<'r, R: Files> {
    rt: &'r R,
    faults: u64,
    blamed: String,
}

impl<'r, R: Files> DirStore<'r, R> {
    pub fn new(rt: &'r R, alloc: Global) -> Self {
        DirStore {
            rt,
            faults: 0,
            blamed: String::new(alloc),
        }
    }
}

/// The bytes up to the end, or one more than the limit. Each turn reads one byte at least, or is the last.
fn read_up_to<F: Read>(alloc: Global, file: &mut F, limit: u32) -> Result<Vec<u8>, StoreError>
    ensures { IfOk result (λ bytes. vec_len bytes ≤ limit + 1) }
{
    let most = limit as usize + 1;
    let mut bytes = Vec::new(alloc);
    let mut piece = [0u8; PIECE];
    for _ in 0..most {
        let size = (most - bytes.len()).min(PIECE);
        if size == 0 {
            break;
        }
        let Ok(n) = file.read(&mut piece[..size]) else {
            return Err(StoreError::Failed);
        };
        if n == 0 {
            break;
        }
        bytes.extend_from_slice(&piece[..n])?;
    }
    Ok(bytes)
}

fn read_path<R: Files>(rt: &R, alloc: Global, path: &str, limit: u32) -> Result<Vec<u8>, StoreError>
    ensures { IfOk result (λ bytes. vec_len bytes ≤ limit) }
{
    let Ok(mut file) = fs::open(rt, path) else {
        return Err(StoreError::Failed);
    };
    let bytes = read_up_to(alloc, &mut file, limit)?;
    if bytes.len() > limit as usize {
        return Err(StoreError::TooLong);
    }
    Ok(bytes)
}

impl<'r, R: Files> Store for DirStore<'r, R> {
    ghost holds = { λ s. None };

    ghost faults = { λ s. s.faults };

    ghost blamed = { λ s. string_bytes s.blamed };

    fn read_file(&mut self, alloc: Global, name: &str, limit: u32) -> Result<Vec<u8>, StoreError> {
        let name_copy = name.to_string(alloc)?;
        match read_path(self.rt, alloc, name, limit) {
            Ok(bytes) => Ok(bytes),
            Err(StoreError::TooLong) => Err(StoreError::TooLong),
            Err(StoreError::Memory) => Err(StoreError::Memory),
            Err(_) => {
                self.faults = self.faults.saturating_add(1);
                self.blamed = name_copy;
                Err(StoreError::Failed)
            }
        }
    }
}

/// A writer, as standard output. It does not tell what it took.
#[derive(Drop)]
pub struct StdoutSink<W: Write> {
    inner: W,
    faults: u64,
}

impl<W: Write> StdoutSink<W> {
    pub fn new(inner: W) -> Self {
        StdoutSink { inner, faults: 0 }
    }
}

impl<W: Write> Sink for StdoutSink<W> {
    ghost taken = { λ s. None };

    ghost faults = { λ s. s.faults };

    fn put(&mut self, bytes: &[u8]) -> Result<usize, SinkFault> {
        match self.inner.write(bytes) {
            Ok(n) if n > 0 => Ok(n),
            _ => {
                self.faults = self.faults.saturating_add(1);
                Err(SinkFault)
            }
        }
    }
}
