// The store: its twelve calls. Each checks in the order of the refusals' numbers, then takes one step that cannot fail.
#![tactic(auto)]

pub mod checks;
pub mod counts;
pub mod endings;
pub mod making;
pub mod reports;
pub mod sizes;
pub mod store;
pub mod writers;
