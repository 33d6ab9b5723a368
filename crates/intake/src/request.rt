//! Messages that may ask something of the history.
ghost use Rattle.std.specs.Prelude.{◌≡◌, if◌then◌else◌};
ghost use Rattle.intake.specs.Made.{IsMade};

use deal_model::{Ask, Echo};

/// A message whose header has all its parts (RFC 9810, 5.1.1), and what it asks of the history.
#[derive(Clone, Copy, Debug)]
pub struct Request<'a> {
    pub(crate) bytes: &'a [u8],
    pub(crate) ask: Ask,
    pub(crate) echo: Echo<'a>,
    pub(crate) outer_echo: Echo<'a>,
    ghost made: { IsMade bytes.now ask echo outer_echo },
}

impl<'a> Request<'a> {
    /// What the history is asked: about the message inside, where it nests one.
    pub fn ask(&self) -> &Ask
        ensures { result.now ≡ self.now.ask }
    {
        &self.ask
    }

    /// What a refusal repeats: of the message that is about something, or of the nested one around it (RFC 9810, 5.1.3.5).
    pub fn echo(&self, outer: bool) -> &Echo<'a>
        ensures { result.now ≡ (if outer then self.now.outer_echo else self.now.echo) }
    {
        if outer { &self.outer_echo } else { &self.echo }
    }
}
