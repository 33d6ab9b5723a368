//! Tests of the rulings: a message for rows of the table of decisions, over a history that Python laid out, each beside one that
//! passes. What each must get is written by hand, from the order of refusals.
#![tactic(auto)]

#[cfg(test)]
mod changes;
#[cfg(test)]
mod confirmations;
#[cfg(test)]
mod messages;
#[cfg(test)]
mod requests;
#[cfg(test)]
mod told;
