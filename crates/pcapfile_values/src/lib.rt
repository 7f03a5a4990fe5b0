//! What programs in C see: the structs of `include/pcapfile.h` and the statuses of its calls.
//! The crate reads these structs from captures, and writes them as parts of captures.
//!
//! A status is 0, the number of an error in the table of refusals, or a number of 8 or more, which is no error of that table.
#![tactic(auto)]

pub mod any_packets;
pub mod blocks;
pub mod bodies;
mod enhanced_options;
pub mod errors;
pub mod reasons;
pub mod shown;
pub mod texts;
