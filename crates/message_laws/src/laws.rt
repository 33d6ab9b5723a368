//! The law, as the contract of a function that does nothing.
ghost use Rattle.message_laws.specs.One.{OctetsAreOneMessage, MessageHasOneSpelling, OctetsAreOneFrame, TextIsOneTime};

/// Whoever reads octets as a message reads the same message: the same header with the same second, the same body, the same
/// octets under the protection, the same protection and the same certificates (RFC 9810, 5.1); and whoever writes it writes these
/// octets. The same holds where the body isn't looked into; and a GeneralizedTime is the time of one second (RFC 5280, 4.1.2.5.2).
pub fn octets_are_one_message()
    ensures message { OctetsAreOneMessage }
    ensures spelling { MessageHasOneSpelling }
    ensures frame { OctetsAreOneFrame }
    ensures time { TextIsOneTime }
{}
