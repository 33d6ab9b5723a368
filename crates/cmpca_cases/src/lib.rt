//! Tests of the program over objects in memory.
#![tactic(auto)]

#[cfg(test)]
mod faults;
#[cfg(test)]
mod init;
#[cfg(test)]
mod journal;
#[cfg(test)]
mod runs;
#[cfg(test)]
mod show;
#[cfg(test)]
mod take;
