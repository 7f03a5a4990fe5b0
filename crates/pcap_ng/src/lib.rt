//! Readers and parsers of PcapNg captures: blocks in their frames, with the section and interfaces in force.
#![tactic(auto)]

pub mod laws;
pub mod pcapng;
pub mod run;
