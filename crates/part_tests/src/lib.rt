//! Tests of the structures that parts are made of.
#![tactic(auto)]

#[cfg(test)]
mod sharing;
#[cfg(test)]
mod stamps;
#[cfg(test)]
mod uris;
