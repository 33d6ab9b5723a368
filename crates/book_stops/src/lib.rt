//! Tests of leaf books: over disks that stop and fail, and over logs that were laid out by hand.
#![tactic(auto)]

#[cfg(test)]
mod books;
#[cfg(test)]
mod faults;
#[cfg(test)]
mod logs;
#[cfg(test)]
mod stops;
