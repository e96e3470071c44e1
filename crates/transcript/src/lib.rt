// The transcript of a script: what is printed of each line.
#![tactic(auto)]

pub mod lines;
pub mod text;
pub mod whole;
