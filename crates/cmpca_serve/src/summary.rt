//! What a run writes that served all its connections.
ghost use Rattle.std.specs.Prelude.{◌≡◌, ◌++◌, IfOk, OnOk};
ghost use Rattle.std.specs.Fmt.{decimal};
ghost use Rattle.cmpca_tool.specs.Lines.{line};
ghost use Rattle.cmpca_serve.specs.Texts.{orders_line, summary};

use cmp_ports::Octets;
use itoa::Buffer;
use std::alloc::{AllocError, Global};

/// What was served, and what became of the history.
#[derive(Clone, Copy)]
pub struct Summary {
    /// How many connections were served.
    pub connections: u64,
    /// How many changes the history has.
    pub changes: u64,
    /// How many orders were obeyed.
    pub done: u64,
    /// How many orders made no change.
    pub refused: u64,
}

/// Puts a number behind a text, with its title.
fn append_count(text: &mut Octets, title: &[u8], number: u64) -> Result<(), AllocError>
    ensures { OnOk result (text.new ≡ text.old ++ (title.now ++ decimal number)) }
{
    let mut digits = Buffer::new();
    text.append(title)?;
    text.append(digits.format(number).as_bytes())
}

/// Puts a line behind a text that has a title and a number.
fn append_line(text: &mut Octets, title: &[u8], number: u64) -> Result<(), AllocError>
    ensures { OnOk result (text.new ≡ text.old ++ line (title.now ++ decimal number)) }
{
    append_count(text, title, number)?;
    text.append(b"\n")
}

/// Puts the line of the orders behind a text.
fn append_orders(text: &mut Octets, done: u64, refused: u64) -> Result<(), AllocError>
    ensures { OnOk result (text.new ≡ text.old ++ orders_line done refused) }
{
    append_count(text, b"orders ", done)?;
    append_count(text, b" done ", refused)?;
    text.append(b" refused\n")
}

impl Summary {
    /// The lines that tell it.
    pub fn lines(self, alloc: Global) -> Result<Octets, AllocError>
        ensures { IfOk result (λ text. text ≡ summary self.connections self.changes self.done self.refused) }
    {
        let mut text = Octets::empty(alloc);
        append_line(&mut text, b"connections ", self.connections)?;
        append_line(&mut text, b"changes ", self.changes)?;
        append_orders(&mut text, self.done, self.refused)?;
        Ok(text)
    }
}
