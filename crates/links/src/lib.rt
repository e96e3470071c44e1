// Lists of slots of one table, linked by index. They know nothing of what the slots hold.
#![tactic(auto)]

pub mod cursor;
pub mod cut;
pub mod look;
pub mod make;
pub mod moves;
pub mod table;
