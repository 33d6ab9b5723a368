//! Sessions over HTTP: the requests of a stream, each answered in its turn by an `Answerer`, and how replies are framed.
#![tactic(auto)]

mod exchange;
mod frame;
mod send;
mod serve;
mod step;

pub use frame::frame_reply;
pub use serve::serve_http;
