//! The image of a run: zeros, or what the folder has under a name; and where it goes in the end.

ghost use Rattle.std.specs.Prelude.{◌≡◌, ◌⊎◌, None, Some, is_some, true, IfOk, IfErr, OnOk, Err};
ghost use Rattle.bc_base.specs.Outside.{HasCause};
ghost use Rattle.bc_base.specs.Folders.{HasSame};
ghost use Rattle.bc_run.specs.Command.{IsImageFor, zeros_for};
ghost use Rattle.bc_run.specs.Statuses.{ChangesOnly, IsPut};
ghost use Rattle.bc_run.specs.Stages.{HasNoImage, text_of};

use crate::status::Status;
use bc_base::{BLOCK_BYTES, Folder, GetError, PutError};
use bc_script::Script;
use bc_script::limits::MAX_BLOCKS;
use std::alloc::{AllocError, Global};

/// The most bytes of an image, those of the largest disk: 64 MiB.
pub const MAX_IMAGE: u64 = BLOCK_BYTES as u64 * MAX_BLOCKS as u64;

/// The image that a run of the script begins with: what the folder has under the name, or zeros
/// without one.
pub(crate) fn opening_image<F: Folder>(
    alloc: Global,
    folder: &mut F,
    name: Option<&str>,
    script: &Script,
) -> Result<Vec<u8>, Status>
    ensures image { IfOk result (λ image. IsImageFor (F.files folder.old) (text_of name.entry) script.now image.items) }
    ensures none { IfErr result (HasNoImage (F.files folder.old) (text_of name.entry) script.now) }
    ensures same { HasSame (F.files folder.old) (F.files folder.new) }
    ensures unused { name.entry ≡ None → folder.new ≡ folder.old }
    ensures cause { HasCause (F.faults folder.old) (F.faults folder.new) (result ≡ Err Status.FolderFault) }
{
    match name {
        Some(name) => image_under(alloc, folder, name, script),
        None => zeros(alloc, script),
    }
}

/// What the folder has under the name, of the length that the script asks for.
fn image_under<F: Folder>(
    alloc: Global,
    folder: &mut F,
    name: &str,
    script: &Script,
) -> Result<Vec<u8>, Status>
    ensures image { IfOk result (λ image. IsImageFor (F.files folder.old) (Some name.now) script.now image.items) }
    ensures none { IfErr result (HasNoImage (F.files folder.old) (Some name.now) script.now) }
    ensures same { HasSame (F.files folder.old) (F.files folder.new) }
    ensures cause { HasCause (F.faults folder.old) (F.faults folder.new) (result ≡ Err Status.FolderFault) }
{
    let image = match folder.get(alloc, name, MAX_IMAGE) {
        Ok(image) => image,
        Err(GetError::Failed) => return Err(Status::FolderFault),
        Err(GetError::Missing) => return Err(Status::Missing),
        Err(GetError::TooLong) => return Err(Status::TooLong { limit: MAX_IMAGE }),
        Err(GetError::Memory) => return Err(Status::NoMemory),
    };
    let want = BLOCK_BYTES as u64 * u64::from(script.blocks());
    let got = image.len() as u64;
    if got != want {
        return Err(Status::ImageLength { want, got });
    }
    Ok(image)
}

/// An image of zeros, as long as the script's disk.
pub(crate) fn zeros(alloc: Global, script: &Script) -> Result<Vec<u8>, Status>
    ensures ok { IfOk result (λ image. image.items ≡ zeros_for script.now) }
    ensures memory { IfErr result (λ e. e ≡ Status.NoMemory) }
{
    let length = BLOCK_BYTES * script.blocks() as usize;
    match vec![in alloc; 0; length] {
        Ok(image) => Ok(image),
        Err(AllocError) => Err(Status::NoMemory),
    }
}

/// Puts the image that is left under the name, if there is one.
pub(crate) fn put_image<F: Folder>(
    folder: &mut F,
    name: Option<&str>,
    image: &[u8],
) -> Result<(), Status>
    ensures put { OnOk result (IsPut (F.files folder.new) (text_of name.entry) image.now) }
    ensures changes { ChangesOnly (text_of name.entry) (F.files folder.old) (F.files folder.new) }
    ensures memory { result ≡ Err Status.NoMemory → HasSame (F.files folder.old) (F.files folder.new) }
    ensures unused { name.entry ≡ None → folder.new ≡ folder.old }
    ensures cause { HasCause (F.faults folder.old) (F.faults folder.new) (result ≡ Err Status.FolderFault) }
    ensures statuses { IfErr result (λ e.
        ((e ≡ Status.FolderFault) × (is_some name.entry ≡ true)) ⊎ (e ≡ Status.NoMemory)) }
{
    let Some(name) = name else {
        return Ok(());
    };
    match folder.put(name, image) {
        Ok(()) => Ok(()),
        Err(PutError::Failed) => Err(Status::FolderFault),
        Err(PutError::Memory) => Err(Status::NoMemory),
    }
}
