//! Laws of frames and messages.
ghost use Rattle.pki_message.specs.Frame.{FrameBeginsNoOther};
ghost use Rattle.pki_message.specs.Message.{MessageBeginsNoOther};

/// No frame begins another one: what is left of one that is cut off is none, and one with octets behind it is none.
pub fn frame_begins_no_other()
    ensures { FrameBeginsNoOther }
{}

/// Nor does a message.
pub fn message_begins_no_other()
    ensures { MessageBeginsNoOther }
{}
