//! Tests of the keys of an authority: key files over trees that others grew.
#![tactic(auto)]

#[cfg(test)]
mod files;
#[cfg(test)]
mod grown;
#[cfg(test)]
mod settled;
