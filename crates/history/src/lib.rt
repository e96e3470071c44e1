// The words of the store: its calls as values, their outcomes and refusals; the history that never prunes; the law of any run; the model that prunes.
#![tactic(auto)]

pub mod call;
pub mod fault;
pub mod show;
pub mod theorems;
