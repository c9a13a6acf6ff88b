//! Tests of whole runs, over worlds in memory.
#![tactic(auto)]

#[cfg(test)]
mod runs;
