//! The files of the system as a folder.

ghost use Rattle.std.specs.Prelude.{◌≡◌, ⊤};
ghost use Rattle.bc_base.specs.Outside.{HasCause};

use crate::std_source::StdSource;
use bc_base::{Failed, Folder, GetError, PutError, ReadError, read_all_expecting};
use std::alloc::Global;
use std::fs::{File, Files, OpenFile, OpenOptions, Permissions};
use std::io::{ErrorKind, Write};
use std::path::AsPath;
use std::{fs, io};

/// How many names beside a target are tried before a put gives up.
const MOST_TRIES: u32 = 64;

/// The files that a name means to the system, from the folder that the process runs in; with a count of their faults. It
/// says no bytes: what a file holds is nowhere stated.
#[derive(Drop)]
pub struct DirFolder<'r, R: Files + AllocGlobal> {
    system: &'r R,
    faults: u64,
}

impl<'r, R: Files + AllocGlobal> DirFolder<'r, R> {
    /// The files, without a fault so far.
    pub fn new(system: &'r R) -> DirFolder<'r, R>
        ensures { result.faults ≡ 0 }
    {
        DirFolder { system, faults: 0 }
    }

    /// Counts a fault.
    fn fault(&mut self) -> Failed
        ensures counts { HasCause self.old.faults self.new.faults ⊤ }
    {
        self.faults = self.faults.saturating_add(1);
        Failed
    }

    /// Writes the bytes under the name. A file that is there, and can be written, stays whole until the new one stands beside
    /// it, and keeps its permissions; what is no file, as a terminal or a pipe, is written itself.
    fn write(&self, name: &str, bytes: &[u8]) -> io::Result<()> {
        let mut there = match OpenOptions::new().write(true).open(self.system, name) {
            Ok(there) => there,
            Err(error) if error.kind() == ErrorKind::NotFound => {
                return self.replace(name, None, bytes);
            }
            Err(error) => return Err(error),
        };
        let found = there.metadata()?;
        if !found.is_file() {
            return there.write_all(bytes);
        }
        // A link stays, and what it names is replaced.
        let path = fs::canonicalize(self.system, name)?;
        self.replace(path.path_text(), Some(found.permissions()), bytes)
    }

    /// Writes the bytes into a new file beside the path, and gives it that name.
    fn replace(&self, path: &str, mode: Option<Permissions>, bytes: &[u8]) -> io::Result<()> {
        for attempt in 0..MOST_TRIES {
            let beside = format!(in self.system.alloc(); "{path}.part{attempt}")?;
            match File::create_new(self.system, beside.as_str()) {
                Ok(file) => return self.fill(file, beside.as_str(), path, mode, bytes),
                Err(error) if error.kind() == ErrorKind::AlreadyExists => {}
                Err(error) => return Err(error),
            }
        }
        Err(io::Error::from(ErrorKind::AlreadyExists))
    }

    /// Fills the new file and gives it its name, or takes it away again.
    fn fill(
        &self,
        mut file: R::File,
        beside: &str,
        path: &str,
        mode: Option<Permissions>,
        bytes: &[u8],
    ) -> io::Result<()> {
        let filled = filled(&mut file, mode, bytes);
        let named = match filled {
            Ok(()) => fs::rename(self.system, beside, path),
            Err(error) => Err(error),
        };
        if named.is_err() {
            let _ = fs::remove_file(self.system, beside);
        }
        named
    }
}

/// How many bytes the system says that a file has, at most so many. It may have others when it is read.
fn expected_bytes<F: OpenFile>(file: &F, limit: u64) -> usize {
    match file.metadata() {
        Ok(found) => found.len().min(limit) as usize,
        Err(_) => 0,
    }
}

/// Writes all the bytes to a new file, with these permissions, and waits until the system has stored them.
fn filled<F: OpenFile + Write>(
    file: &mut F,
    mode: Option<Permissions>,
    bytes: &[u8],
) -> io::Result<()> {
    if let Some(mode) = mode {
        file.set_permissions(mode)?;
    }
    file.write_all(bytes)?;
    file.sync_all()
}

impl<R: Files + AllocGlobal> Folder for DirFolder<'_, R> {
    ghost use Rattle.std.specs.Prelude.{None};

    ghost files = { λ _. None };

    ghost faults = { λ f. f.faults };

    fn get(&mut self, alloc: Global, name: &str, limit: u64) -> Result<Vec<u8>, GetError> {
        let file = match File::open(self.system, name) {
            Ok(file) => file,
            Err(error) if error.kind() == ErrorKind::NotFound => return Err(GetError::Missing),
            Err(_) => {
                self.fault();
                return Err(GetError::Failed);
            }
        };
        let expected = expected_bytes(&file, limit);
        match read_all_expecting(alloc, &mut StdSource::new(file), expected, limit) {
            Ok(bytes) => Ok(bytes),
            Err(ReadError::TooLong) => Err(GetError::TooLong),
            Err(ReadError::Memory) => Err(GetError::Memory),
            Err(ReadError::Failed) => {
                self.fault();
                Err(GetError::Failed)
            }
        }
    }

    fn put(&mut self, name: &str, bytes: &[u8]) -> Result<(), PutError> {
        match self.write(name, bytes) {
            Ok(()) => Ok(()),
            Err(error) if error.kind() == ErrorKind::OutOfMemory => Err(PutError::Memory),
            Err(_) => {
                self.fault();
                Err(PutError::Failed)
            }
        }
    }
}
