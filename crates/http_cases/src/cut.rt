//! A stream in memory that comes and goes in pieces.

ghost use Rattle.std.specs.Prelude.{◌<◌, Some};

use cmp_links::{Link, MemLink};
use cmp_ports::Failed;

/// The link, of which a read or a write takes only so many octets at once.
#[derive(Drop)]
pub struct Cut {
    pub link: MemLink,
    most: usize,
    ghost some: { 0 < most },
}

impl Cut {
    /// At least one octet at once.
    pub fn new(link: MemLink, most: usize) -> Cut {
        Cut {
            link,
            most: most.max(1),
        }
    }
}

impl Link for Cut {
    ghost use Rattle.cmp_links.specs.MemLink.{left_of, gave_of, written_of, faults_of};

    ghost left = { λ l. Some (left_of l.link) };

    ghost gave = { λ l. Some (gave_of l.link) };

    ghost written = { λ l. Some (written_of l.link) };

    ghost faults = { λ l. faults_of l.link };

    fn read(&mut self, into: &mut [u8]) -> Result<usize, Failed> {
        let count = into.len().min(self.most);
        self.link.read(&mut into[..count])
    }

    fn write(&mut self, bytes: &[u8]) -> Result<usize, Failed> {
        let count = bytes.len().min(self.most);
        self.link.write(&bytes[..count])
    }
}
