//! Captures that a command reads: unchanged or repaired, and all of their packets or the selected ones.
#![tactic(auto)]

mod input;

pub use input::Input;
