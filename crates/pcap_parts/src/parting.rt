//! The ways in which a caller can request the parts of a capture.

ghost use Rattle.pcap_parts.specs.Partings.{WantsNext};

use crate::cut::to_next_end;

/// The parts of a capture that a caller requests.
#[derive(Clone, Copy, Debug, PartialEq, Eq)]
pub enum Parting {
    /// This many parts of equal length. The last one may be shorter or longer, and each other one differs by less than an item.
    Equal(usize),
    /// Parts of at least this many bytes each. No part has an item more than it needs for them.
    AtLeast(usize),
}

impl Parting {
    /// Returns the least number of bytes from the `passed` bytes, of `bytes` in all, to the next cut. Returns `None` if no cut follows.
    pub fn wanted(self, passed: usize, bytes: usize) -> Option<usize>
        ensures { WantsNext self passed bytes result }
    {
        match self {
            Parting::Equal(parts) => to_next_end(passed, bytes, parts),
            Parting::AtLeast(least) => Some(least),
        }
    }
}
