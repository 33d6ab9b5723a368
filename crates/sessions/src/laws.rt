//! Laws of sessions, each the contract of a function that does nothing.
ghost use Rattle.sessions.specs.Sessions.{SessionsStay, SessionsBeginSooner};

use deal_table::what_is_settled_stays;

/// A session over a history is one over each history that begins with it; and it is one over each history that what was known as it
/// began begins with.
pub fn a_session_stays()
    ensures later { SessionsStay }
    ensures sooner { SessionsBeginSooner }
{
    what_is_settled_stays();
}
