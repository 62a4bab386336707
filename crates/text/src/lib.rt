//! Texts of keys, decimal numbers and lines: how they are read, what is wrong with a line, and how they are written.
#![tactic(auto)]

pub mod fault;
pub mod line;
pub mod list;
pub mod read;
pub mod write;
