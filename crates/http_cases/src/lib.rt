//! Tests of sessions over HTTP: streams in memory, whole and in pieces, before an answerer that echoes.
#![tactic(auto)]

#[cfg(test)]
mod cut;
#[cfg(test)]
mod echo;
#[cfg(test)]
mod failing;
#[cfg(test)]
mod large;
#[cfg(test)]
mod small;
