//! A real file as a source. What it holds is not told, so no clause says that its octets are what a read gives.
ghost use Rattle.std.specs.Prelude.{◌≡◌, ◌≤◌, length, IfOk, IsSome, OnOk};
ghost use Rattle.cmp_ports.specs.Faults.{Rose};
ghost use Rattle.cmp_ports.specs.Untold.{untold};

#[cfg(test)]
mod tests;

use crate::again::read_again;
use crate::counted::Tally;
use crate::{Failed, Source};
use std::fs::{File, OpenOptions};
use std::io::{self, ErrorKind};
use std::rt::Files;

/// The file of this path, read from its front. The first call opens it; where it can't be opened, each call tries
/// again.
#[derive(Drop)]
pub struct FileSource<R: Files<File = File> + Drop> {
    files: R,
    path: String,
    file: Option<File>,
    tally: Tally,
}

// Opens the file for reading, where it isn't open.
pub(crate) fn open_to_read<R: Files<File = File>>(
    files: &R,
    path: &str,
    file: &mut Option<File>,
) -> io::Result<()>
    ensures { OnOk result (IsSome file.new) }
{
    if file.is_none() {
        let mut how = OpenOptions::new();
        how.read(true);
        *file = Some(files.open_file(&how, path)?);
    }
    Ok(())
}

fn read_some<R: Files<File = File>>(
    files: &R,
    path: &str,
    file: &mut Option<File>,
    into: &mut [u8],
) -> io::Result<usize>
    ensures { IfOk result (λ n. n ≤ length into.new) }
{
    open_to_read(files, path, file)?;
    read_again(file.as_mut().unwrap(), into)
}

impl<R: Files<File = File> + Drop> FileSource<R> {
    /// The file of this path, in the runtime's file system. It isn't opened yet.
    pub fn new(files: R, path: String) -> FileSource<R>
        ensures { result.tally.count ≡ 0 }
    {
        FileSource {
            files,
            path,
            file: None,
            tally: Tally::new(),
        }
    }

    /// The path.
    pub fn path(&self) -> &str {
        self.path.as_str()
    }

    /// Why the last call that failed did.
    pub fn why(&self) -> Option<io::Error>
        ensures { result ≡ self.now.tally.last }
    {
        self.tally.why()
    }

    // Counts a fault of what was read, and why it is one.
    pub(crate) fn fault(&mut self, words: &str) -> Failed
        ensures rose { Rose self.old.tally.count self.new.tally.count }
        ensures later { self.old.tally.count ≤ self.new.tally.count }
    {
        self.tally
            .fault(io::Error::new(ErrorKind::InvalidData, words))
    }
}

impl<R: Files<File = File> + Drop> Source for FileSource<R> {
    ghost left = { λ _. untold };

    ghost faults = { λ s. s.tally.count };

    fn read(&mut self, into: &mut [u8]) -> Result<usize, Failed> {
        let answer = read_some(&self.files, self.path.as_str(), &mut self.file, into);
        self.tally.note(answer)
    }
}
