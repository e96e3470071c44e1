// The version table: the chains of many records in one fixed table of slots. Nothing allocates once it is made.
#![tactic(auto)]

pub mod cursor;
pub mod ops;
pub mod prune;
pub mod table;
pub mod versions;
pub mod walk;
