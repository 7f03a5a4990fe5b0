//! Checking captures of either format, and the packets in blocks, for the program `pcapfile`.
#![tactic(auto)]

mod block_packet;
mod captures;
mod checked;
mod format;
mod lines;
mod sound_blocks;

pub use block_packet::{BlockPacket, holds_packet, interface_at, packet_in_body};
pub use captures::{check_blocks, check_bodies, check_packets};
pub use checked::{Checked, End, end_of};
pub use format::{Format, format_of};
pub use lines::put_packet;
