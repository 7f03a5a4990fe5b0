//! Items of any format that follow one another: the definition of a format, and the one engine that parses, reads, fills and
//! copies its items, from slices, pieces and streams.
#![tactic(auto)]

mod rest;
pub mod run;
pub mod stream;

pub use rest::{Rest, rest_or_memory};
