// The state of a store: newest rows in place, and chains of versions that lead back from them. The steps here cannot fail; the calls above check first.
#![tactic(auto)]

pub mod changes;
pub mod counts;
pub mod endings;
pub mod entry;
pub mod lists;
pub mod making;
pub mod reads;
pub mod state;
pub mod sweep;
pub mod tables;
