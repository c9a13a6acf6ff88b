//! Tests of term lists, by worked numbers and bytes.
#![tactic(auto)]

#[cfg(test)]
mod lists;
