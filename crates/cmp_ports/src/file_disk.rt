//! A real file as a disk. What it holds is not told, so no clause says that it does what a disk does.
ghost use Rattle.std.specs.Prelude.{◌≡◌, ◌≤◌, length, IfOk};
ghost use Rattle.cmp_ports.specs.Untold.{untold, none_told};

#[cfg(test)]
mod tests;

use crate::again::read_at_again;
use crate::counted::Tally;
use crate::{Disk, Failed};
use std::fs::{File, OpenOptions, TryLockError};
use std::io::{self, ErrorKind};
use std::os::unix::fs::{FileExt, OpenOptionsExt};
use std::rt::Files;

/// The mode of a file that is made: its owner alone may read and write it.
const MODE: u32 = 0o600;

/// What is told where another process has the lock.
const IN_USE: &str = "in use by another process";

/// What may be done with the file of a disk.
#[derive(Clone, Copy, Debug, PartialEq, Eq)]
pub enum Opening {
    /// It is read, and never written. No lock is taken.
    ReadOnly,
    /// It is read and written, under a lock.
    Existing,
    /// It is read and written, under a lock, and made where it isn't there.
    MayBeMade,
}

/// How far a disk is with its file.
#[derive(Drop)]
enum Access {
    /// It wasn't looked for, or couldn't be opened.
    Unopened,
    /// It wasn't there.
    Absent,
    /// It is open, and locked where it may be written.
    Open(File),
}

/// The file of this path. The first call opens it; where it can't be opened, each call tries again. A file that isn't there is an
/// empty disk. Only a disk that may make it does so, with mode 0600, at its first write; where the file is there by then, that write
/// fails. Its name is synced before a sync of it succeeds. A file that may be written has std's exclusive advisory lock (flock) from
/// the call that opens it on: where another process has it, the call fails.
#[derive(Drop)]
pub struct FileDisk<R: Files<File = File> + Drop> {
    files: R,
    path: String,
    opening: Opening,
    access: Access,
    /// Whether the folder was synced since the file was opened.
    named: bool,
    tally: Tally,
}

// Takes the lock that a writer has alone as long as it has the file open.
fn lock(file: &File) -> io::Result<()> {
    match file.try_lock() {
        Ok(()) => Ok(()),
        Err(TryLockError::WouldBlock) => Err(io::Error::new(ErrorKind::WouldBlock, IN_USE)),
        Err(TryLockError::Error(error)) => Err(error),
    }
}

// Makes the file, which wasn't there, and locks it.
fn make<R: Files<File = File>>(files: &R, path: &str) -> io::Result<Access> {
    let mut how = OpenOptions::new();
    how.read(true).write(true).create_new(true);
    how.mode(MODE);
    let file = files.open_file(&how, path)?;
    lock(&file)?;
    Ok(Access::Open(file))
}

// Opens the file where it is there, and locks it where it may be written.
fn find<R: Files<File = File>>(files: &R, path: &str, opening: Opening) -> io::Result<Access> {
    let may_write = opening != Opening::ReadOnly;
    let mut how = OpenOptions::new();
    how.read(true).write(may_write);
    match files.open_file(&how, path) {
        Ok(file) => {
            if may_write {
                lock(&file)?;
            }
            Ok(Access::Open(file))
        }
        Err(error) if error.kind() == ErrorKind::NotFound => Ok(Access::Absent),
        Err(error) => Err(error),
    }
}

// The folder in which the file of a path has its name.
fn folder(path: &str) -> &str {
    match path.rsplit_once('/') {
        None => ".",
        Some(("", _)) => "/",
        Some((folder, _)) => folder,
    }
}

// Syncs the folder of a path, so that the file's name outlives a power cut.
fn sync_folder<R: Files<File = File>>(files: &R, path: &str) -> io::Result<()> {
    let mut how = OpenOptions::new();
    how.read(true);
    files.open_file(&how, folder(path))?.sync_all()
}

impl<R: Files<File = File> + Drop> FileDisk<R> {
    /// The file of this path, in the runtime's file system. It isn't opened yet.
    pub fn new(files: R, path: String, opening: Opening) -> FileDisk<R>
        ensures { result.tally.count ≡ 0 }
    {
        FileDisk {
            files,
            path,
            opening,
            access: Access::Unopened,
            named: false,
            tally: Tally::new(),
        }
    }

    /// The path.
    pub fn path(&self) -> &str {
        self.path.as_str()
    }

    /// Why the last call that failed did.
    pub fn why(&self) -> Option<io::Error>
        ensures { result ≡ self.now.tally.last }
    {
        self.tally.why()
    }

    // Looks for the file, where it wasn't yet.
    fn open(&mut self) -> io::Result<()>
        ensures { self.new.tally ≡ self.old.tally }
    {
        if let Access::Unopened = &self.access {
            self.access = find(&self.files, self.path.as_str(), self.opening)?;
        }
        Ok(())
    }

    // Makes the file, where it isn't there and may be made.
    fn open_to_write(&mut self) -> io::Result<()>
        ensures { self.new.tally ≡ self.old.tally }
    {
        self.open()?;
        if let Access::Absent = &self.access {
            if self.opening != Opening::MayBeMade {
                return Err(io::Error::from(ErrorKind::NotFound));
            }
            self.access = make(&self.files, self.path.as_str())?;
        }
        Ok(())
    }

    // The open file, where there is one.
    fn file(&self) -> Option<&File> {
        match &self.access {
            Access::Open(file) => Some(file),
            _ => None,
        }
    }

    fn measure(&mut self) -> io::Result<u64>
        ensures { self.new.tally ≡ self.old.tally }
    {
        self.open()?;
        match self.file() {
            Some(file) => Ok(file.metadata()?.len()),
            None => Ok(0),
        }
    }

    fn read(&mut self, at: u64, into: &mut [u8]) -> io::Result<usize>
        ensures tally { self.new.tally ≡ self.old.tally }
        ensures bound { IfOk result (λ n. n ≤ length into.new) }
    {
        self.open()?;
        match self.file() {
            Some(file) => read_at_again(file, at, into),
            None => Ok(0),
        }
    }

    fn write(&mut self, at: u64, bytes: &[u8]) -> io::Result<()>
        ensures { self.new.tally ≡ self.old.tally }
    {
        self.open_to_write()?;
        match self.file() {
            Some(file) => file.write_all_at(bytes, at),
            None => Err(io::Error::from(ErrorKind::NotFound)),
        }
    }

    // Brings the name of a file that may have been made to the disk, and then what was written.
    fn settle(&mut self) -> io::Result<()>
        ensures { self.new.tally ≡ self.old.tally }
    {
        self.open()?;
        let Access::Open(file) = &self.access else {
            return Ok(());
        };
        if self.opening == Opening::MayBeMade && !self.named {
            sync_folder(&self.files, self.path.as_str())?;
            self.named = true;
        }
        file.sync_data()
    }
}

impl<R: Files<File = File> + Drop> Disk for FileDisk<R> {
    ghost content = { λ _. untold };

    ghost images = { λ _ _. ⊥ };

    ghost moment = { λ _. 0 };

    ghost left_since = { λ _ _ _. ⊥ };

    ghost faults = { λ d. d.tally.count };

    ghost loan = { λ _. 0 };

    ghost counts_now = { λ _ _ _ _ now. now };

    ghost only_now = { λ _ _ left. left };

    ghost honest = { λ _ f told. none_told f ⊥ told };

    fn size(&mut self) -> Result<u64, Failed> {
        let answer = self.measure();
        self.tally.note(answer)
    }

    fn read_at(&mut self, at: u64, into: &mut [u8]) -> Result<usize, Failed> {
        let answer = self.read(at, into);
        self.tally.note(answer)
    }

    fn write_at(&mut self, at: u64, bytes: &[u8]) -> Result<(), Failed> {
        let answer = self.write(at, bytes);
        self.tally.note(answer)
    }

    fn sync(&mut self) -> Result<(), Failed> {
        let answer = self.settle();
        self.tally.note(answer)
    }
}
