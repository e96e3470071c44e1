// Calls as values, performed on a store: one step, and any journal of calls on a new store. The law of any run stands on the contract of `run`.
#![tactic(auto)]

pub mod answers;
pub mod journal;
pub mod perform;
pub mod turn;
