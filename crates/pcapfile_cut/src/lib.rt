//! The words `cut` and `join` of the program `pcapfile`, over any input and output.
#![tactic(auto)]

mod block_moving;
mod block_shortening;
mod blocks;
mod changing;
mod cutting;
mod duplicates;
mod joining;
pub mod laws;
mod moving;
mod opening;
mod repeated;
mod selection;
mod stepping;
mod wanted;

pub use block_moving::{Moved, Moving};
pub use block_shortening::{Shortened, Shortening};
pub use blocks::BlockCutter;
pub use changing::Changes;
pub use cutting::{Outcome, cut_more, cut_part};
pub use duplicates::Recent;
pub use joining::{Joined, join_part};
pub use moving::Shift;
pub use opening::Opening;
pub use pcap_classic::TsResolution;
pub use repeated::Repeated;
pub use selection::{Range, Selection};
pub use stepping::PacketCutter;
pub use wanted::Wanted;
