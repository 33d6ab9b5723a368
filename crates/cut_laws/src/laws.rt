//! The law, as the contract of a function that does nothing.
ghost use Rattle.cut_laws.specs.Cut.{CutIsNeither, MessageReadersRefuse, FrameReadersRefuse};

/// What is left of a message (RFC 9810, 5.1) that lost octets at its end is no message, nor is it one whose body isn't looked into;
/// and what is left of such a frame is neither. So whoever answers with a message, or a frame, only where the octets are one, refuses
/// it; `read_message` and `read_frame` of pki_message promise that by `found`.
pub fn cut_is_neither()
    ensures neither { CutIsNeither }
    ensures messages { MessageReadersRefuse }
    ensures frames { FrameReadersRefuse }
{}
