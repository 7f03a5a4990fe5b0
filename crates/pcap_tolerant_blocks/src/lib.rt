//! Lenient reading of the bodies of PcapNg blocks: bodies with their flaws, where the strict calls stop at the first fault.
#![tactic(auto)]

mod enhanced;
mod flaw_by_flaw;
mod flaws;
mod in_force;
mod interface;
pub mod laws;
mod list;
mod names;
mod outline;
mod packet_block;
mod records;
mod section;
mod simple;
mod sound;
mod statistics;
mod stored;

pub use enhanced::EnhancedAsIs;
pub use flaw_by_flaw::next_flaw;
pub use flaws::{Broken, Flaw};
pub use in_force::InterfacesAsIs;
pub use interface::InterfaceAsIs;
pub use names::NamesAsIs;
pub use outline::InterfaceOutline;
pub use packet_block::PacketBlockAsIs;
pub use section::SectionAsIs;
pub use simple::SimpleAsIs;
pub use sound::{OptionsOf, put_sound_options};
pub use statistics::StatisticsAsIs;
