//! Tests of the check of a request by a look: a message for each row of the order of refusals that it can reach, each beside one
//! that passes the row. The messages are by tests/vectors/check_vectors.py, which holds X.690 and RFC 8018 alone.
#![tactic(auto)]

#[cfg(test)]
mod checked;
#[cfg(test)]
mod inside;
#[cfg(test)]
mod looks;
#[cfg(test)]
mod nested;
#[cfg(test)]
mod others;
#[cfg(test)]
mod requests;
#[cfg(test)]
mod senders;
