//! Whole files and folders of the machine.
ghost use Rattle.std.specs.Prelude.{◌≡◌, ◌≤◌, length, vec_len, IfOk, OnOk};

use std::alloc::{AllocError, AllocFailed, Global};
use std::fs::{Files, OpenFile, OpenOptions, ReadDir};
use std::io::{ErrorKind, Read, Write};
use std::{fs, io};
use uf_cid::Memory;

/// Why the machine did not do what it was asked.
#[derive(Clone, Copy, PartialEq, Eq)]
pub enum Trouble {
    Failed,
    Memory,
}

impl From<io::Error> for Trouble {
    fn from(error: io::Error) -> Self {
        if error.kind() == ErrorKind::OutOfMemory {
            Trouble::Memory
        } else {
            Trouble::Failed
        }
    }
}

impl From<AllocError> for Trouble {
    fn from(_: AllocError) -> Self {
        Trouble::Memory
    }
}

impl From<Memory> for Trouble {
    fn from(_: Memory) -> Self {
        Trouble::Memory
    }
}

impl<T: Drop> From<AllocFailed<T>> for Trouble {
    fn from(_: AllocFailed<T>) -> Self {
        Trouble::Memory
    }
}

/// What an act on something gave; None where nothing is there.
pub fn if_there<T: Drop>(done: io::Result<T>) -> Result<Option<T>, Trouble> {
    match done {
        Ok(given) => Ok(Some(given)),
        Err(error) if error.kind() == ErrorKind::NotFound => Ok(None),
        Err(error) => Err(Trouble::from(error)),
    }
}

/// What is in a folder, in no order.
pub fn entries_of<'a, R: Files>(
    files: &'a R,
    alloc: Global,
    folder: &str,
) -> io::Result<ReadDir<(&'a R, Global)>> {
    fs::read_dir(&(files, alloc), folder)
}

/// How long the file at a path is; None where nothing is there. Anything there but a file is trouble, and isn't
/// opened.
pub fn length_of<R: Files>(files: &R, path: &str) -> Result<Option<u64>, Trouble> {
    match if_there(fs::metadata(files, path))? {
        Some(found) if found.is_file() => Ok(Some(found.len())),
        Some(_) => Err(Trouble::Failed),
        None => Ok(None),
    }
}

/// Reads n bytes of a file into a buffer that gets this length.
pub fn read_file<R: Files>(
    files: &R,
    path: &str,
    length: usize,
    buffer: &mut Vec<u8>,
) -> Result<(), Trouble>
    ensures { OnOk result (vec_len buffer.new ≡ length) }
{
    buffer.resize(length, 0)?;
    fill_from(files, path, buffer.as_mut_slice())
}

/// Fills a piece with the first bytes of a file, by one read where the machine gives them at once.
pub fn fill_from<R: Files>(files: &R, path: &str, piece: &mut [u8]) -> Result<(), Trouble> {
    let mut file = fs::open(files, path)?;
    file.read_exact(piece)?;
    Ok(())
}

/// Puts a file of these bytes at a path, by one act, in the place of what is there. The bytes are written under
/// another name and made durable before they get this one. What was begun is taken away where that fails.
pub fn put_file<R: Files>(files: &R, new: &str, path: &str, bytes: &[u8]) -> Result<(), Trouble> {
    let put = write_and_rename(files, new, path, bytes);
    if put.is_err() {
        let _ = fs::remove_file(files, new);
    }
    put
}

fn write_and_rename<R: Files>(
    files: &R,
    new: &str,
    path: &str,
    bytes: &[u8],
) -> Result<(), Trouble> {
    write_file(files, new, bytes)?;
    fs::rename(files, new, path)?;
    Ok(())
}

// Makes a new file of these bytes, which is durable.
fn write_file<R: Files>(files: &R, path: &str, bytes: &[u8]) -> Result<(), Trouble> {
    let mut file = OpenOptions::new()
        .write(true)
        .create_new(true)
        .open(files, path)?;
    file.write_all(bytes)?;
    file.sync_all()?;
    Ok(())
}

/// Puts a piece after the bytes of a file, which is made where nothing is there.
pub fn append_file<R: Files>(files: &R, path: &str, piece: &[u8]) -> Result<(), Trouble> {
    let mut file = OpenOptions::new()
        .append(true)
        .create(true)
        .open(files, path)?;
    file.write_all(piece)?;
    Ok(())
}

/// Reads some bytes: how many, 0 at the end. An interrupted read is tried again.
pub fn read_some<S: Read>(source: &mut S, buf: &mut [u8]) -> Result<usize, Trouble>
    ensures { IfOk result (λ count. count ≤ length buf.new) }
{
    for _ in 0..u64::MAX {
        match source.read(buf) {
            Ok(count) => return Ok(count),
            Err(error) if error.kind() == ErrorKind::Interrupted => {}
            Err(error) => return Err(Trouble::from(error)),
        }
    }
    Err(Trouble::Failed)
}

/// Makes a folder where nothing is there: whether it was made.
pub fn make_folder<R: Files>(files: &R, path: &str) -> Result<bool, Trouble> {
    match fs::create_dir(files, path) {
        Ok(()) => Ok(true),
        Err(error) if error.kind() == ErrorKind::AlreadyExists => Ok(false),
        Err(error) => Err(Trouble::from(error)),
    }
}

/// Makes the names in a folder durable.
pub fn sync_folder<R: Files>(files: &R, path: &str) -> Result<(), Trouble> {
    let folder = fs::open(files, path)?;
    folder.sync_all()?;
    Ok(())
}

/// Takes the file at a path away: whether one was there. A link to a file goes, and the file stays; anything else that
/// is there stays.
pub fn remove_file<R: Files>(files: &R, path: &str) -> Result<bool, Trouble> {
    if !is_file(files, path)? {
        return Ok(false);
    }
    Ok(if_there(fs::remove_file(files, path))?.is_some())
}

// Whether there is a file at a path.
fn is_file<R: Files>(files: &R, path: &str) -> Result<bool, Trouble> {
    match if_there(fs::metadata(files, path))? {
        Some(found) => Ok(found.is_file()),
        None => Ok(false),
    }
}
