//! The actions of the program `capcopy`, over any input and output.
#![tactic(auto)]

mod blocks;
mod commands;
mod copy;
mod input;
mod items;
mod line;
mod list;
mod listed_blocks;
mod message;
mod packets;
mod words;

pub use commands::run;
pub use items::{Lister, list_items};
pub use list::list_lines;
pub use listed_blocks::{BlockLine, Blocks};
pub use message::Message;
pub use packets::{PacketLine, list_packets};
pub use words::{Arguments, MOST, WordList, Words, run_words};
