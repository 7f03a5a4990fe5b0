//! Captures that another program changed as a whole: a text-mode transfer changed their line ends.
#![tactic(auto)]

pub mod laws;
mod line_ends;

pub use line_ends::{LineEnds, is_transferred};
