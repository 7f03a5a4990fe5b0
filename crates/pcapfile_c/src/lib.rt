//! The library for programs in C, and in every language that calls C. `include/pcapfile.h` declares its calls.
//!
//! A call returns a status: 0, the number of an error in the table of refusals, or one of four more numbers.
//! 8: there is no such item. 9: the room is too short. 10: places are outside of the room. 11: an array has too few places.
//! Nothing checks what a program in C passes, so no call requires anything of the values of its arguments.
#![tactic(auto)]

mod any;
mod as_is;
mod batches;
mod block_cuts;
mod blocks;
mod blocks_as_is;
mod bodies;
mod cuts;
mod damaged;
pub mod laws;
mod link_field;
mod options;
mod parts;
mod pcap;
mod push;
mod push_batches;
mod push_blocks;
mod push_packets;
mod putting;
mod putting_with;
mod records;
mod rows;
mod rule_texts;
mod version;
mod writing;
