//! Writing of PcapNg captures: the text of each block, and a writer of blocks.
#![tactic(auto)]

mod block;
mod form;
mod kinds;
pub mod laws;
mod names;
mod options;
mod packet;
mod place;
mod put;
mod raw;
mod unwritable;
mod writer;

pub use block::{BlockHead, PcapNgBlock};
pub use packet::put_packet;
pub use place::Place;
pub use raw::{RawBlock, RawPcapNgBlock};
pub use unwritable::{Unput, Unwritable};
pub use writer::{PcapNgWriter, encode, encode_body, frame};
