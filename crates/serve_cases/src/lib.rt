//! Tests of serving over objects in memory.
#![tactic(auto)]

#[cfg(test)]
mod gates;
#[cfg(test)]
mod orders;
#[cfg(test)]
mod overlap;
#[cfg(test)]
mod runs;
#[cfg(test)]
mod statuses;
#[cfg(test)]
mod streams;
#[cfg(test)]
mod vectors;
