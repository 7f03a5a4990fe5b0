//! Mending malformed PcapNg blocks, so that strict reading takes them, and completing blocks that are cut off.
#![tactic(auto)]

mod cut_off;
mod described;
mod front;
pub mod laws;
mod mending;

pub use cut_off::complete;
pub use described::{Described, describe};
pub use mending::{Mended, mend};
