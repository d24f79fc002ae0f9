//! A folder in memory, for tests and for callers that have their files already.

ghost use Rattle.std.specs.Prelude.{◌≡◌, ◌≢◌, ◌⊎◌, ◌↔◌, ℕ, ◌<◌, ◌≤◌, List, [], length, Some, None, MatchOption, IsSomeAnd, IfOk, IfErr, IsErrOf, OnOk, OnErr};
ghost use Rattle.std.specs.Str.{bytes_eq};
ghost use Rattle.bc_base.specs.Memory.{NextFails, calls_after_success, calls_after_fault};
ghost use Rattle.bc_base.specs.Outside.{HasCause};
ghost use Rattle.bc_base.specs.Folders.{file_bytes, IsPlaceOf};

use crate::calls::Calls;
use crate::error::{GetError, PutError};
use crate::folder::Folder;
use std::alloc::{AllocError, Global};
use std::marker::Model;

/// Keeps files in memory, and fails at the calls that it was made to fail.
#[derive(Drop)]
pub struct MemFolder {
    alloc: Global,
    files: Vec<File>,
    calls: Calls,
}

/// The bytes under a name.
#[derive(Drop)]
struct File {
    name: String,
    bytes: Vec<u8>,
}

impl Model for File {
    ghost use Rattle.std.specs.Prelude.{string_bytes};
    ghost use Rattle.bc_base.specs.Folders.{FileData};

    ghost Value = { FileData };

    ghost view = { λ f. record { name = string_bytes f.name; bytes = f.bytes.items } };
}

impl Model for MemFolder {
    ghost use Rattle.bc_base.specs.Folders.{FolderData};

    ghost Value = { FolderData };

    ghost view = { λ f. record { files = f.files.items; calls = f.calls } };
}

impl MemFolder {
    /// No file. It fails at the calls with the numbers `fails`, counted from 0, gets and puts together.
    pub fn new(alloc: Global, fails: Vec<u64>) -> MemFolder
        ensures { result ≡ record { files = []; calls = record { fails = fails.items; calls = 0; faults = 0 } } }
    {
        MemFolder {
            alloc,
            files: Vec::new(alloc),
            calls: Calls::new(fails),
        }
    }
}

impl Folder for MemFolder {
    ghost use Rattle.std.specs.Prelude.{Some};
    ghost use Rattle.bc_base.specs.Folders.{file_bytes};

    ghost files = { λ f. Some (file_bytes f.files) };

    ghost faults = { λ f. f.calls.faults };

    fn get(&mut self, alloc: Global, name: &str, limit: u64) -> Result<Vec<u8>, GetError>
        ensures found { IfOk result (λ bytes. file_bytes self.old.files name.now ≡ Some bytes.items) }
        ensures within { IfOk result (λ bytes. length bytes.items ≤ limit) }
        ensures missing { IsErrOf result GetError.Missing → file_bytes self.old.files name.now ≡ None }
        ensures too_long { IsErrOf result GetError.TooLong
            → IsSomeAnd (file_bytes self.old.files name.now) (λ bytes. limit < length bytes) }
        ensures cause { HasCause self.old.calls.faults self.new.calls.faults (IsErrOf result GetError.Failed) }
        ensures fails { IsErrOf result GetError.Failed ↔ NextFails self.old.calls }
        ensures failed { IsErrOf result GetError.Failed
            → self.new ≡ record self.old { calls = calls_after_fault self.old.calls } }
        ensures called { (IsErrOf result GetError.Failed → ⊥)
            → self.new ≡ record self.old { calls = calls_after_success self.old.calls } }
    {
        self.calls.next()?;
        let Some(place) = place_of(&self.files, name) else {
            return Err(GetError::Missing);
        };
        self.files[place].read(alloc, limit)
    }

    fn put(&mut self, name: &str, bytes: &[u8]) -> Result<(), PutError>
        ensures puts { OnOk result (file_bytes self.new.files name.now ≡ Some bytes.now) }
        ensures others { (other : List ℕ) → other ≢ name.now
            → file_bytes self.new.files other ≡ file_bytes self.old.files other }
        ensures same { OnErr result (self.new.files ≡ self.old.files) }
        ensures cause { HasCause self.old.calls.faults self.new.calls.faults (IsErrOf result PutError.Failed) }
        ensures fails { IsErrOf result PutError.Failed ↔ NextFails self.old.calls }
        ensures failed { IsErrOf result PutError.Failed → self.new.calls ≡ calls_after_fault self.old.calls }
        ensures called { (IsErrOf result PutError.Failed → ⊥) → self.new.calls ≡ calls_after_success self.old.calls }
    {
        self.calls.next()?;
        let file = File::copy_of(self.alloc, name, bytes)?;
        put_file(&mut self.files, file)?;
        Ok(())
    }
}

impl File {
    /// These bytes under this name.
    fn copy_of(alloc: Global, name: &str, bytes: &[u8]) -> Result<File, AllocError>
        ensures { IfOk result (λ file. file ≡ record { name = name.now; bytes = bytes.now }) }
    {
        Ok(File {
            name: String::from_str(alloc, name)?,
            bytes: Vec::from_slice(alloc, bytes)?,
        })
    }

    /// Tells whether it has this name.
    fn is_named(&self, name: &str) -> bool
        ensures { result ≡ bytes_eq self.now.name name.now }
    {
        self.name.as_str() == name
    }

    /// Its bytes, where they are no more than so many.
    fn read(&self, alloc: Global, limit: u64) -> Result<Vec<u8>, GetError>
        ensures bytes { IfOk result (λ bytes. bytes.items ≡ self.now.bytes) }
        ensures within { IfOk result (λ bytes. length bytes.items ≤ limit) }
        ensures too_long { IsErrOf result GetError.TooLong → limit < length self.now.bytes }
        ensures causes { IfErr result (λ e. (e ≡ GetError.TooLong) ⊎ (e ≡ GetError.Memory)) }
    {
        if self.bytes.len() as u64 > limit {
            return Err(GetError::TooLong);
        }
        Ok(Vec::from_slice(alloc, &self.bytes)?)
    }
}

/// The place of the first file of this name.
fn place_of(files: &[File], name: &str) -> Option<usize>
    ensures { MatchOption result (file_bytes files.now name.now ≡ None) (IsPlaceOf files.now name.now) }
{
    for (place, file) in files.iter().enumerate() {
        if file.is_named(name) {
            return Some(place);
        }
    }
    None
}

/// Puts a file in place of the first one of its name, or last where there is none.
fn put_file(files: &mut Vec<File>, file: File) -> Result<(), AllocError>
    ensures puts { OnOk result (file_bytes files.new.items file.name ≡ Some file.bytes) }
    ensures others { OnOk result
        ((other : List ℕ) → other ≢ file.name → file_bytes files.new.items other ≡ file_bytes files.old.items other) }
    ensures err { OnErr result (files.new.items ≡ files.old.items) }
{
    match place_of(files, file.name.as_str()) {
        Some(place) => files[place] = file,
        None => files.push(file)?,
    }
    Ok(())
}
