//! What a program asks of its system before it opens a file.

#[cfg(test)]
mod tests;

use std::fs::{self, File, OpenOptions};
use std::io;
use std::os::fd::{AsFd, IntoRawFd};
use std::os::unix::fs::MetadataExt;
use std::rt::Files;

/// The device that gives and takes nothing.
const NULL: &str = "/dev/null";

/// The bits of a mode by which others than the owner read.
const OTHERS_READ: u32 = 0o044;

// Takes the descriptor of a stream that is closed, by the null device, up to the end of the process.
fn hold<R: Files<File = File>, S: AsFd>(
    files: &R,
    stream: &S,
    how: &OpenOptions,
) -> io::Result<()> {
    if stream.as_fd().try_clone_to_owned().is_err() {
        files.open_file(how, NULL)?.into_raw_fd();
    }
    Ok(())
}

/// Takes the descriptors of the standard streams that are closed, so that no file opened later stands in their place. A closed input
/// can't be read then, and a closed output can't be written: such a call is a fault, as before.
pub fn hold_streams(rt: &HostRuntime) -> io::Result<()> {
    let mut to_write = OpenOptions::new();
    to_write.write(true);
    let mut to_read = OpenOptions::new();
    to_read.read(true);
    hold(rt, &rt.stdin(), &to_write)?;
    hold(rt, &rt.stdout(), &to_read)?;
    hold(rt, &rt.stderr(), &to_read)
}

/// Whether two paths name one file. They do where they are the same text, and where both are there as one file of one device.
pub fn is_one_file<R: Files>(files: &R, one: &str, other: &str) -> bool {
    if one == other {
        return true;
    }
    match (fs::metadata(files, one), fs::metadata(files, other)) {
        (Ok(a), Ok(b)) => a.dev() == b.dev() && a.ino() == b.ino(),
        _ => false,
    }
}

/// Whether others than its owner may read the file of this path, by its mode. False where there is no such file.
pub fn others_may_read<R: Files>(files: &R, path: &str) -> bool {
    match fs::metadata(files, path) {
        Ok(found) => found.is_file() && found.mode() & OTHERS_READ != 0,
        Err(_) => false,
    }
}
