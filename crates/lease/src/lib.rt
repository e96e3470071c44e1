// Leases: what a registry of open leases means, its refusals, the tokens that must be spent,
// and what every registry does to the numbers of open leases.
#![tactic(auto)]

pub mod counting;
pub mod fault;
pub mod leasing;
pub mod registry;
pub mod show;
pub mod token;
