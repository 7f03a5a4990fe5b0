//! The command line of the program `pcapfile`.
#![tactic(auto)]

mod rows;
pub mod words;
