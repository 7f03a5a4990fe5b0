//! The word `sort` of the program `pcapfile`, over any input and output.
#![tactic(auto)]

mod again;
mod blocks;
mod collecting;
mod copying;
mod entry;
pub mod laws;
mod packets;
mod records;
mod sorting;

pub use again::ReadAgain;
pub use sorting::{Refusal, Sorted, SortedBlocks, sort_blocks, sort_capture};
