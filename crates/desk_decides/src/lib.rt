//! Tests of how a desk decides messages that were checked, over logs that were laid out by hand and disks that fail.
#![tactic(auto)]

#[cfg(test)]
mod deciding;
#[cfg(test)]
mod lending;
#[cfg(test)]
mod logs;
#[cfg(test)]
mod messages;
