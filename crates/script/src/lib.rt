// Scripts: lines, words, numbers and commands, read from bytes.
#![tactic(auto)]

pub mod command;
pub mod fault;
pub mod kinds;
pub mod number;
pub mod opening;
pub mod reader;
pub mod show;
pub mod words;
