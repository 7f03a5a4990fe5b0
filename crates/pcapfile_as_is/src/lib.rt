//! Lenient handling of malformed captures for the program `pcapfile`: reports of flaws of packets and PcapNg blocks, lists of packets,
//! and repaired captures without flaws.
#![tactic(auto)]

mod block_flaws;
mod block_listed;
mod block_repairs;
mod block_teller;
mod block_telling;
mod checked;
mod counted;
mod flaw_telling;
mod flaws;
mod gaps;
pub mod laws;
mod listed;
mod mended;
mod repairs;
mod teller;
mod telling;

pub use block_listed::BlockPacketLines;
pub use block_repairs::BlockRepairs;
pub use block_teller::BlockTeller;
pub use block_telling::tell_blocks;
pub use checked::CheckedAsIs;
pub use counted::{Counted, Spot, Told};
pub use flaw_telling::tell_flaws;
pub use flaws::FlawLines;
pub use gaps::{Gap, Position, put_gap};
pub use listed::PacketLines;
pub use mended::repaired;
pub use repairs::Repairs;
pub use teller::Teller;
pub use telling::tell_packets;
