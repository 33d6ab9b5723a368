//! Tests of seats that meet at one desk.
#![tactic(auto)]

#[cfg(test)]
mod desks;
#[cfg(test)]
mod dismissing;
#[cfg(test)]
mod enlisting;
#[cfg(test)]
mod meeting;
#[cfg(test)]
mod requests;
