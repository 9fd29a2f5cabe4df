// Delay memories: what a memory means, and two makes that mean it.
#![tactic(auto)]

pub mod banks;
pub mod lent;
pub mod memory;
mod places;
pub mod ring;
#[cfg(test)]
mod tests;
