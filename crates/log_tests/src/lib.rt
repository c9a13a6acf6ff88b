//! Tests of the disk in memory, and of the logs over it.
#![tactic(auto)]

#[cfg(test)]
mod disks;
#[cfg(test)]
mod fixtures;
#[cfg(test)]
mod frames;
