//! Packet filters: classic BPF programs, as `tcpdump -ddd EXPRESSION` prints them, that run over the bytes of packets.
#![tactic(auto)]

mod errors;
mod filter;
pub mod laws;
mod machine;
mod operation;
mod program;
mod text;

pub use errors::{FilterError, Rule, TextError, TextRule};
pub use filter::Filter;
pub use operation::{Kind, Operation};
pub use program::{Instruction, Step};
pub use text::parse;
