//! Tests of requests and of whole messages: octets by Bouncy Castle 1.72 and OpenSSL 3.0, read, and written again, and their
//! neighbours, refused.
#![tactic(auto)]

#[cfg(test)]
mod bodies;
#[cfg(test)]
mod common;
#[cfg(test)]
mod frames;
#[cfg(test)]
mod neighbours;
#[cfg(test)]
mod request_vectors;
#[cfg(test)]
mod requests;
#[cfg(test)]
mod vectors;
#[cfg(test)]
mod wishes;
#[cfg(test)]
mod written;
