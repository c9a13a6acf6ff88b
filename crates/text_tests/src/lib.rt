//! Tests of the texts and bytes that are read and written.
#![tactic(auto)]

#[cfg(test)]
mod documents;
#[cfg(test)]
mod formats;
#[cfg(test)]
mod lines;
#[cfg(test)]
mod queries;
