//! Files of the operating system as devices.
ghost use Rattle.std.specs.Prelude.{IfOk};
ghost use Rattle.cq_disk.specs.Opened.{IsOpened};

use crate::{Host, Modelled, Start, TornWrites};
use std::fs::{self, File, OpenOptions, TryLockError};
use std::io;
use std::os::fd::AsRawFd;
use std::os::unix::fs::{MetadataExt, OpenOptionsExt};
use thiserror::Error;

/// Why a file wasn't opened or made. Nothing in it was changed.
#[derive(Clone, Copy, Debug, Error)]
pub enum OpenFault {
    /// It is open already, here or in another program.
    #[error("the file is in use")]
    Busy,
    /// It is a folder, a link or a device, or has a second name.
    #[error("it is not a regular file with one name")]
    NotAFile,
    #[error("{0}")]
    Io(io::Error),
}

impl From<io::Error> for OpenFault {
    fn from(error: io::Error) -> OpenFault {
        OpenFault::Io(error)
    }
}

/// Opens the file at a path. No other call opens it until the device is dropped, and its length stays what it is now.
/// What is proved of the device holds for whatever bytes the file has, as `S` stands for them.
pub fn open<S: Start>(
    rt: &HostRuntime,
    path: &str,
    torn: TornWrites,
    _start: S,
) -> Result<Modelled<Host, S>, OpenFault>
    ensures { IfOk result (IsOpened torn) }
{
    if !fs::symlink_metadata(rt, path)?.is_file() {
        return Err(OpenFault::NotAFile);
    }
    let file = OpenOptions::new().read(true).write(true).open(rt, path)?;
    let file = lock(rt, path, file)?;
    let len = file.metadata()?.len() as usize;
    Ok(Modelled::new(Host::new(file), len, torn))
}

/// Opens the file at a path to read it, whoever else has it open and writes to it. Nothing is written through the device: each write
/// fails. Its length stays what the file's is now. What is proved of the device holds for whatever bytes the file has, as `S` stands
/// for them, while these don't change.
pub fn open_to_read<S: Start>(
    rt: &HostRuntime,
    path: &str,
    _start: S,
) -> Result<Modelled<Host, S>, OpenFault>
    ensures { IfOk result (IsOpened TornWrites.Any) }
{
    if !fs::symlink_metadata(rt, path)?.is_file() {
        return Err(OpenFault::NotAFile);
    }
    let file = OpenOptions::new().read(true).open(rt, path)?;
    check_name(rt, path, &file)?;
    let len = file.metadata()?.len() as usize;
    Ok(Modelled::new(Host::new(file), len, TornWrites::Any))
}

/// Makes a file of so many zeros, which only its owner may read. It takes no space yet: a write into it may find the
/// disk full. Once this ends well, the file's length and its name are on the medium. A file that is there is left
/// alone, and is an `Io` of the kind `AlreadyExists`.
pub fn create(rt: &HostRuntime, path: &str, len: usize) -> Result<(), OpenFault> {
    let file = OpenOptions::new()
        .write(true)
        .create_new(true)
        .mode(0o600)
        .open(rt, path)?;
    let file = lock(rt, path, above_the_streams(file)?)?;
    file.set_len(len as u64)?;
    file.sync_all()?;
    sync_folder_of(rt, path)
}

/// Gives the file at a path another name in the same folder, in the place of the file that has it. Once this ends well, the name is on the
/// medium.
pub fn put_in_place(rt: &HostRuntime, path: &str, name: &str) -> Result<(), OpenFault> {
    fs::rename(rt, path, name)?;
    sync_folder_of(rt, name)
}

/// Removes the file at a path.
pub fn remove(rt: &HostRuntime, path: &str) -> Result<(), OpenFault> {
    Ok(fs::remove_file(rt, path)?)
}

// Its names are on the medium then.
fn sync_folder_of(rt: &HostRuntime, path: &str) -> Result<(), OpenFault> {
    let mut folder = fs::canonicalize(rt, path)?;
    folder.pop();
    fs::File::open(rt, folder.as_str())?.sync_all()?;
    Ok(())
}

// What is meant for a standard stream that was closed must not land in the file.
fn above_the_streams(file: File) -> io::Result<File> {
    if file.as_raw_fd() <= 2 {
        file.try_clone()
    } else {
        Ok(file)
    }
}

// The file that is open is the one of that name, and has no other one.
fn check_name(rt: &HostRuntime, path: &str, file: &File) -> Result<(), OpenFault> {
    let (found, named) = (file.metadata()?, fs::symlink_metadata(rt, path)?);
    let is_named = found.dev() == named.dev() && found.ino() == named.ino();
    if !is_named || !found.is_file() || found.nlink() != 1 {
        return Err(OpenFault::NotAFile);
    }
    Ok(())
}

// The lock is on the file itself, whatever its name. It is gone when the file is closed.
fn lock(rt: &HostRuntime, path: &str, file: File) -> Result<File, OpenFault> {
    check_name(rt, path, &file)?;
    match file.try_lock() {
        Ok(()) => Ok(file),
        Err(TryLockError::WouldBlock) => Err(OpenFault::Busy),
        Err(TryLockError::Error(error)) => Err(OpenFault::Io(error)),
    }
}
