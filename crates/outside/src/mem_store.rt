//! A store in memory, with reads that fail on demand.
ghost use Rattle.std.specs.Prelude.{◌≡◌, ◌≢◌, ◌≤◌, [], ◌∷◌, ◌++◌, Some, None, IfOk, IfErr, OnOk, OnErr, find, option_copied, string_bytes};
ghost use Rattle.std.specs.Str.{bytes_eq};
ghost use Rattle.outside.specs.Store.{IsHeld, IsRefused, HasCause};
ghost use Rattle.outside.specs.declared.store.StoreError.TheVariants.{Failed};
ghost use Rattle.outside.specs.MemStore.{held_under, held_by, SetsFile, IsRead};

use crate::store::{Store, StoreError};
use std::alloc::{AllocError, Global};
use std::marker::Model;

#[derive(Drop)]
struct File {
    name: String,
    bytes: Vec<u8>,
}

impl Model for File {
    ghost use Rattle.std.specs.Prelude.{string_bytes};
    ghost use Rattle.outside.specs.MemStore.{HeldFile};

    ghost Value = { HeldFile };

    ghost view = { λ f. record { name = string_bytes f.name; bytes = f.bytes.items } };
}

/// Files in memory.
#[derive(Drop)]
pub struct MemStore {
    alloc: Global,
    files: Vec<File>,
    failing: Vec<u64>,
    reads: u64,
    faults: u64,
    blamed: String,
}

impl Model for MemStore {
    ghost use Rattle.std.specs.Prelude.{string_bytes};
    ghost use Rattle.outside.specs.MemStore.{StoreState};

    ghost Value = { StoreState };

    ghost view = { λ s. record {
      files = s.files.items;
      failing = s.failing.items;
      reads = s.reads;
      faults = s.faults;
      blamed = string_bytes s.blamed;
    } };
}

impl MemStore {
    /// A store that holds nothing and fails no read.
    pub fn new(alloc: Global) -> MemStore
        ensures { result ≡ record { files = []; failing = []; reads = 0; faults = 0; blamed = [] } }
    {
        MemStore {
            alloc,
            files: Vec::new(alloc),
            failing: Vec::new(alloc),
            reads: 0,
            faults: 0,
            blamed: String::new(alloc),
        }
    }

    /// Sets the bytes of a file.
    pub fn add(&mut self, name: &str, bytes: &[u8]) -> Result<(), AllocError>
        ensures ok { OnOk result (SetsFile (held_by self.old) (held_by self.new) name.now bytes.now) }
        ensures others { self.new ≡ record self.old { files = self.new.files } }
        ensures err { OnErr result (self.new ≡ self.old) }
    {
        let name = name.to_string(self.alloc)?;
        let bytes = bytes.to_vec(self.alloc)?;
        self.files.insert(0, File { name, bytes })?;
        Ok(())
    }

    /// Makes the nth read fail, counted from 1.
    ///
    /// A read that answers `Memory` leaves the store as it was, and is not counted.
    pub fn fail_call(&mut self, n: u32) -> Result<(), AllocError>
        ensures ok { OnOk result (self.new ≡ record self.old { failing = self.old.failing ++ n ∷ [] }) }
        ensures err { OnErr result (self.new ≡ self.old) }
    {
        self.failing.push(u64::from(n))?;
        Ok(())
    }
}

fn file_named<'a>(files: &'a [File], name: &str) -> Option<&'a File>
    ensures { option_copied result ≡ find (λ f. bytes_eq f.name name.now) files.now }
{
    files.iter().find(|f| f.name.as_str() == name)
}

// Copies the bytes under a name, if they are there and within the limit.
fn copy_file(files: &[File], alloc: Global, name: &str, limit: u32) -> Result<Vec<u8>, StoreError>
    ensures held { IfOk result (λ bytes. IsHeld (Some (held_under files.now)) name.now limit bytes.items) }
    ensures refused { IfErr result (λ e. IsRefused (Some (held_under files.now)) name.now limit e) }
    ensures not_failed { IfErr result (λ e. e ≢ Failed) }
{
    let Some(file) = file_named(files, name) else {
        return Err(StoreError::Absent);
    };
    if file.bytes.len() > limit as usize {
        return Err(StoreError::TooLong);
    }
    Ok(file.bytes.as_slice().to_vec(alloc)?)
}

impl Store for MemStore {
    ghost holds = { λ s. Some (held_by s) };

    ghost faults = { λ s. s.faults };

    ghost blamed = { λ s. s.blamed };

    fn read_file(&mut self, alloc: Global, name: &str, limit: u32) -> Result<Vec<u8>, StoreError>
        ensures kept { Some (held_by self.new) ≡ Some (held_by self.old) }
        ensures held { IfOk result (λ bytes. IsHeld (Some (held_by self.old)) name.now limit bytes.items) }
        ensures refused { IfErr result (λ e. IsRefused (Some (held_by self.old)) name.now limit e) }
        ensures cause { HasCause self.old.faults self.new.faults
            self.old.blamed self.new.blamed name.now result }
        ensures never_falls { self.old.faults ≤ self.new.faults }
        ensures exact { IsRead self.old self.new name.now result }
        ensures quiet { self.old.failing ≡ [] → self.new.faults ≡ self.old.faults }
    {
        let name_copy = name.to_string(alloc)?;
        let read = self.reads.saturating_add(1);
        if self.failing.contains(&read) {
            self.reads = read;
            self.faults = self.faults.saturating_add(1);
            self.blamed = name_copy;
            return Err(StoreError::Failed);
        }
        let answer = copy_file(&self.files, alloc, name, limit);
        if !matches!(answer, Err(StoreError::Memory)) {
            self.reads = read;
        }
        answer
    }
}
