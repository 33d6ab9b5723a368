//! Tests of the journal: what stands on the disk, over disks that stop and fail, and at the limits.
#![tactic(auto)]

#[cfg(test)]
mod faults;
#[cfg(test)]
mod files;
#[cfg(test)]
mod images;
#[cfg(test)]
mod logs;
#[cfg(test)]
mod stops;
