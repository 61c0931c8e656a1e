//! Files of which one call fails.
use std::alloc::Allocator;
use std::cell::Cell;
use std::fs::{Files, Metadata, OpenOptions};
use std::io;
use std::random::RandomSource;

/// The files of another, but the call with one number, counted from 0, fails.
#[derive(Drop)]
pub struct FailingFiles<'a, R> {
    inner: &'a R,
    number: u64,
    calls: Cell<u64>,
}

impl<'a, R> FailingFiles<'a, R> {
    pub fn new(inner: &'a R, number: u64) -> Self {
        FailingFiles {
            inner,
            number,
            calls: Cell::new(0),
        }
    }

    /// Whether that call came.
    pub fn has_failed(&self) -> bool {
        self.number < self.calls.get()
    }

    fn check(&self) -> io::Result<()> {
        let call = self.calls.get();
        self.calls.set(call.saturating_add(1));
        if call == self.number {
            return Err(io::Error::from(io::ErrorKind::StorageFull));
        }
        Ok(())
    }
}

impl<'a, R: RandomSource> RandomSource for FailingFiles<'a, R> {
    fn fill_bytes(&self, buf: &mut [u8]) -> io::Result<()> {
        self.check()?;
        self.inner.fill_bytes(buf)
    }
}

impl<'a, R: Files> Files for FailingFiles<'a, R> {
    type File = R::File;

    type Dir = R::Dir;

    fn open_file(&self, how: &OpenOptions, path: &str) -> io::Result<R::File> {
        self.check()?;
        self.inner.open_file(how, path)
    }

    fn open_dir(&self, path: &str) -> io::Result<R::Dir> {
        self.check()?;
        self.inner.open_dir(path)
    }

    fn metadata(&self, path: &str) -> io::Result<Metadata> {
        self.check()?;
        self.inner.metadata(path)
    }

    fn symlink_metadata(&self, path: &str) -> io::Result<Metadata> {
        self.check()?;
        self.inner.symlink_metadata(path)
    }

    fn copy(&self, from: &str, to: &str) -> io::Result<u64> {
        self.check()?;
        self.inner.copy(from, to)
    }

    fn rename(&self, from: &str, to: &str) -> io::Result<()> {
        self.check()?;
        self.inner.rename(from, to)
    }

    fn remove_file(&self, path: &str) -> io::Result<()> {
        self.check()?;
        self.inner.remove_file(path)
    }

    fn create_dir(&self, path: &str) -> io::Result<()> {
        self.check()?;
        self.inner.create_dir(path)
    }

    fn remove_dir(&self, path: &str) -> io::Result<()> {
        self.check()?;
        self.inner.remove_dir(path)
    }

    fn remove_dir_all<B: Allocator>(&self, alloc: B, path: &str) -> io::Result<()> {
        self.check()?;
        self.inner.remove_dir_all(alloc, path)
    }
}
