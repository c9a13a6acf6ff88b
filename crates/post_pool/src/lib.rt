//! Chains of numbers in one pool, their nodes linked by index: a chain grows without an allocation of its own.
#![tactic(auto)]

mod chain;
mod links;
mod pool;
mod refusal;
mod room;
#[cfg(test)]
mod tests;

pub use chain::Chain;
pub use pool::Pool;
pub use refusal::PoolRefusal;
