//! Tests of the engine, over disks in memory, and of the live documents under it.
#![tactic(auto)]

#[cfg(test)]
mod engines;
#[cfg(test)]
mod fixtures;
#[cfg(test)]
mod live;
