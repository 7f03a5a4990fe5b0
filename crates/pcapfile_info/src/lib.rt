//! Information on captures, read from any input: packets, bytes, times and sizes, in total and for each interface.
#![tactic(auto)]

mod blocks;
mod captures;
mod clocks;
mod described;
mod late;
pub mod laws;
mod others;
mod packets;
mod passing;
mod progress;
mod seen;
mod shown;
mod spread;
mod spreading;
mod tally;
mod totals;

pub use captures::{Information, inform_blocks, inform_packets};
pub use described::{Described, Device, DeviceTexts, Machine, Opened};
pub use late::Late;
pub use others::{Kind, Others};
pub use seen::{Seen, Sight};
pub use spread::{SPANS, Spread};
pub use tally::{CLASSES, LEAST, Tally};
pub use totals::Totals;
