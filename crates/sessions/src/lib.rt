//! Sessions: the messages of a stream, each answered in its turn over the history that a clerk keeps.
#![tactic(auto)]

mod laws;
mod serving;

pub use laws::a_session_stays;
pub use serving::serve_link;
