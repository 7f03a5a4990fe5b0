//! Merges captures by time, or one after another.
#![tactic(auto)]

mod buffered;
mod buffered_blocks;
mod choice;
mod kept;
pub mod laws;
mod left_out;
mod little;
mod made;
mod merging;
mod numbers;
mod packet;
mod parts;
mod reader;
mod renewed;
mod reordered;
mod section_options;
mod source;
mod stored;

pub use buffered::BufferedPackets;
pub use buffered_blocks::BufferedBlocks;
pub use choice::{PacketOrder, next_source};
pub use left_out::LeftOut;
pub use merging::{Merged, merge_packets};
pub use reader::Reader;
pub use section_options::add_options;
pub use source::Source;
