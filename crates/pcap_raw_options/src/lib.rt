//! Raw options of PcapNg blocks. Each option is its code, its length and its bytes, and no value is interpreted. The list
//! ends where the next option can't be found.
#![tactic(auto)]

pub mod laws;
pub mod raw;

pub use raw::{RawOptions, raw_options};
