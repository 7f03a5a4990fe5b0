//! The parts that the classic and the PcapNg format share, without streams: errors, rules, link types, and the numbers and
//! padded bytes at the front of a slice.
#![tactic(auto)]

mod common;
mod errors;
pub mod fields;
mod link;
mod link_field;
pub mod rules;

pub use common::{CowBytes, Endianness};
pub use errors::{PcapError, ResultParsing};
pub use link::DataLink;
pub use link_field::LinkField;
