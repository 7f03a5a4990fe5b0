//! Code that the test crates share: captures, failing streams and writers, tables of bytes with the results of calls, and parts of the
//! programs whose calls are counted.
#![tactic(auto)]

pub mod captures;
pub mod passes;
pub mod readers;
pub mod rows;
pub mod writers;
