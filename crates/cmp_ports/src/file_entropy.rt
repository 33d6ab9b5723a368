//! Random octets of a real file, such as `/dev/urandom`. What it holds is not told, so no clause says that the octets
//! of a draw are its own.
ghost use Rattle.std.specs.Prelude.{◌≡◌, None};

#[cfg(test)]
mod tests;

use crate::counted::Tally;
use crate::file_source::open_to_read;
use crate::{Entropy, Failed};
use std::fs::File;
use std::io::{self, Read};
use std::rt::Files;

/// The file of this path, of which each draw reads the next 32 octets. The first call opens it; where it can't be
/// opened, each call tries again. A file that ends before the 32nd octet is a fault.
#[derive(Drop)]
pub struct FileEntropy<R: Files<File = File> + Drop> {
    files: R,
    path: String,
    file: Option<File>,
    tally: Tally,
}

fn fill<R: Files<File = File>>(
    files: &R,
    path: &str,
    file: &mut Option<File>,
    into: &mut [u8; 32],
) -> io::Result<()> {
    open_to_read(files, path, file)?;
    file.as_mut().unwrap().read_exact(into)
}

impl<R: Files<File = File> + Drop> FileEntropy<R> {
    /// The file of this path, in the runtime's file system. It isn't opened yet.
    pub fn new(files: R, path: String) -> FileEntropy<R>
        ensures { result.tally.count ≡ 0 }
    {
        FileEntropy {
            files,
            path,
            file: None,
            tally: Tally::new(),
        }
    }

    /// The path.
    pub fn path(&self) -> &str {
        self.path.as_str()
    }

    /// Why the last call that failed did.
    pub fn why(&self) -> Option<io::Error>
        ensures { result ≡ self.now.tally.last }
    {
        self.tally.why()
    }
}

impl<R: Files<File = File> + Drop> Entropy for FileEntropy<R> {
    ghost draws = { λ _. None };

    ghost faults = { λ e. e.tally.count };

    ghost loan = { λ _. 0 };

    fn draw(&mut self, into: &mut [u8; 32]) -> Result<(), Failed> {
        let answer = fill(&self.files, self.path.as_str(), &mut self.file, into);
        self.tally.note(answer)
    }
}
