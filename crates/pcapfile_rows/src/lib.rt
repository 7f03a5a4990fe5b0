//! Damaged captures: their packets or blocks in rows, without the corrupt bytes between them. The crate finds a lost header, and mends
//! lengths and the last block where nothing contradicts it. It reports what it changes, leaves out or keeps by a guess.
#![tactic(auto)]

mod change;
mod describing;
mod frames;
mod in_force;
mod lost;
mod numbers;
mod opened;
mod opening;
mod packets;
mod rows;
mod stored;
mod torn;
mod undo;
mod variants;
mod window;

pub use change::{Change, Changed};
pub use describing::{Fate, Source, Undescribed};
pub use lost::FirstSection;
pub use opened::{FoundPackets, Opened};
pub use opening::{Found, Guessed, Opening, header_for};
pub use packets::{HEADER, LIMIT};
pub use rows::Rows;
