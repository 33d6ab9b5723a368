//! Tests of the desk: over disks that stop and fail, and over logs that were laid out by hand.
#![tactic(auto)]

#[cfg(test)]
mod faults;
#[cfg(test)]
mod founding;
#[cfg(test)]
mod logs;
#[cfg(test)]
mod mounts;
#[cfg(test)]
mod stops;
