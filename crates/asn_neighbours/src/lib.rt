//! Tests of names, extensions and times: each is read, and its neighbours in octets are refused.
#![tactic(auto)]

#[cfg(test)]
mod extensions;
#[cfg(test)]
mod general;
#[cfg(test)]
mod names;
#[cfg(test)]
mod times;
