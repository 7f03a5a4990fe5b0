//! Lenient reading of PcapNg captures: a parser that leaves no block out for the flaws of its body.
//!
//! The strict parser of `pcap_ng` stops at the first fault of a section or an interface. This parser puts a flawed section or
//! interface in force and reports its flaws. It reads the frames of blocks as strictly as `pcap_ng`.
#![tactic(auto)]

mod block;
mod copy;
mod kept;
pub mod laws;
mod parser;
mod pieces;
mod places;
mod reader;
pub mod resync;
mod run;
mod stated;

pub use block::BlockAsIs;
pub use copy::{NgCopiedAsIs, copy_pcapng_as_is, copy_pcapng_as_is_buffered};
pub use parser::{OpenedAsIs, PcapNgParserAsIs};
pub use pieces::pieces_pcapng_as_is;
pub use places::first_blocks;
pub use reader::{LentAsIs, PcapNgReaderAsIs};
pub use run::{FlawedAt, NgRunAsIs, parse_pcapng_as_is};
