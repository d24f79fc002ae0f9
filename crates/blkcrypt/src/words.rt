//! The words of the command line.

use bc_run::Status;
use std::env;
use std::io::ErrorKind;

/// The words after the program's name. No clause says which they are, since the system gives them.
///
/// # Errors
///
/// `Usage` where a word isn't UTF-8, and `NoMemory` out of memory.
pub fn words(rt: &HostRuntime) -> Result<Vec<String>, Status> {
    let all = match env::args(rt) {
        Ok(all) => all,
        Err(error) if error.kind() == ErrorKind::OutOfMemory => return Err(Status::NoMemory),
        Err(_) => return Err(Status::Usage),
    };
    all.skip(1)
        .collect(rt.alloc())
        .map_err(|_| Status::NoMemory)
}
