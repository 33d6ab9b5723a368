//! Laws of protections.
ghost use Rattle.protect.specs.Holds.{MessagesAreChecked};
ghost use Rattle.protect.specs.Written.{ProtectedIsReadBack};

/// Each message that is read is of a size that `protection_ok` takes.
pub fn messages_are_checked()
    ensures { MessagesAreChecked }
{}

/// Each message that is protected as asked, of parts that have the forms of their types, is read back with its header, body and
/// certificate, and its protection holds.
pub fn protected_is_read_back()
    ensures { ProtectedIsReadBack }
{}
