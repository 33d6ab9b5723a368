//! Tests of the parts of messages' bodies: octets by Bouncy Castle 1.72, read, and written again, and their neighbours, refused.
#![tactic(auto)]

#[cfg(test)]
mod common;
#[cfg(test)]
mod confirmations;
#[cfg(test)]
mod errors;
#[cfg(test)]
mod polls;
#[cfg(test)]
mod reasons;
#[cfg(test)]
mod replies;
#[cfg(test)]
mod revocations;
#[cfg(test)]
mod revoked;
#[cfg(test)]
mod statuses;
