// Chains: versions, what a list of them reads, and pruning to as few as still serve.
#![tactic(auto)]

pub mod gap;
pub mod list;
pub mod version;
