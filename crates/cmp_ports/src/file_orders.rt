//! The orders of a real file, one a line. What it holds is not told, so no clause says that its lines are the orders.
ghost use Rattle.std.specs.Prelude.{◌≡◌, ℕ, ◌+◌, ◌≤◌, List, [], ◌∷◌, ◌++◌, None};
ghost use Rattle.cmp_ports.specs.Faults.{HasCause};

#[cfg(test)]
mod tests;

use crate::file_source::FileSource;
use crate::order::{Order, order_of_line};
use crate::{Failed, Orders, Source};
use std::fs::File;
use std::io;
use std::rt::Files;

/// The most octets of a line without its end. A longer one is a fault.
const LINE_LIMIT: usize = 65_536;

/// What is told of a longer one.
const TOO_LONG: &str = "a line of more than 65,536 octets";

/// One octet more than the longest line that spells an order, `release ` and 128 digits. A line that fills it is a bad
/// order, whatever follows.
const KEPT: usize = 137;

/// How many octets are asked for at once.
const PIECE: usize = 4096;

// The line that is being read: its first octets, and how many it has so far.
#[derive(Drop)]
struct Line {
    first: [u8; KEPT],
    len: usize,
}

/// The file of this path, whose lines end by LF and are orders, from the first to the last; octets after the last LF
/// are one line more. Where the file has grown since its end was told, the next call reads on. The first call opens the file; where it can't be opened, each call tries again. A line of more
/// than 65,536 octets is a fault of each call from there on, since a `Failed` takes no order.
#[derive(Drop)]
pub struct FileOrders<R: Files<File = File> + Drop> {
    source: FileSource<R>,
    piece: [u8; PIECE],
    at: usize,
    end: usize,
    line: Line,
    ghost started: { at ≤ end },
    ghost within: { end ≤ 4096 },
    ghost length: { line.len ≤ 65537 },
}

impl Line {
    ghost use Rattle.cmp_ports.specs.OrderLine.{IsLine};
    ghost use Rattle.cmp_ports.specs.Orders.{IsOrderLine};

    fn empty() -> Line
        ensures len { result.len ≡ 0 }
        ensures line { IsLine result [] }
    {
        Line {
            first: [0; KEPT],
            len: 0,
        }
    }

    // One octet more of the line.
    fn push(&mut self, octet: u8)
        requires { self.old.len ≤ 65536 }
        ensures len { self.new.len ≡ self.old.len + 1 }
        ensures line { (line : List ℕ) → IsLine self.old line → IsLine self.new (line ++ octet ∷ []) }
    {
        if self.len < KEPT {
            self.first[self.len] = octet;
        }
        self.len += 1;
    }

    // The order of the line.
    fn order(&self) -> Order
        ensures order { (line : List ℕ) → IsLine self.now line → IsOrderLine line result }
    {
        order_of_line(&self.first[..self.len.min(KEPT)])
    }
}

impl<R: Files<File = File> + Drop> FileOrders<R> {
    ghost use Rattle.cmp_ports.specs.OrderLine.{IsLine};
    ghost use Rattle.cmp_ports.specs.Orders.{IsOrderLine};

    /// The file of this path, in the runtime's file system. It isn't opened yet.
    pub fn new(files: R, path: String) -> FileOrders<R>
        ensures { result.source.tally.count ≡ 0 }
    {
        FileOrders {
            source: FileSource::new(files, path),
            piece: [0; PIECE],
            at: 0,
            end: 0,
            line: Line::empty(),
        }
    }

    /// The path.
    pub fn path(&self) -> &str {
        self.source.path()
    }

    /// Why the last call that failed did.
    pub fn why(&self) -> Option<io::Error> {
        self.source.why()
    }

    // The next octet of the file, where there is one.
    fn octet(&mut self) -> Result<Option<u8>, Failed>
        ensures cause { HasCause self.old.source.tally.count self.new.source.tally.count result }
        ensures line { self.new.line.len ≡ self.old.line.len }
    {
        if self.at == self.end {
            let count = self.source.read(&mut self.piece)?;
            self.at = 0;
            self.end = count;
        }
        if self.at == self.end {
            return Ok(None);
        }
        let octet = self.piece[self.at];
        self.at += 1;
        Ok(Some(octet))
    }

    // The order of the line so far, after which another line begins.
    fn finish(&mut self) -> Order
        ensures faults { self.new.source.tally.count ≡ self.old.source.tally.count }
        ensures order { (line : List ℕ) → IsLine self.old.line line → IsOrderLine line result }
        ensures next { IsLine self.new.line [] }
    {
        let order = self.line.order();
        self.line = Line::empty();
        order
    }
}

impl<R: Files<File = File> + Drop> Orders for FileOrders<R> {
    ghost left = { λ _. None };

    ghost faults = { λ o. o.source.tally.count };

    fn next(&mut self) -> Result<Option<Order>, Failed> {
        while self.line.len <= LINE_LIMIT {
            match self.octet()? {
                Some(b'\n') => return Ok(Some(self.finish())),
                Some(octet) => self.line.push(octet),
                None if self.line.len == 0 => return Ok(None),
                None => return Ok(Some(self.finish())),
            }
        }
        Err(self.source.fault(TOO_LONG))
    }
}
