//! Times of PcapNg captures: conversion from an interface's units to seconds and nanoseconds.
//!
//! The format is that of the IETF draft draft-ietf-opsawg-pcapng; names in quotes are sections of it.
#![tactic(auto)]

mod clock;
pub mod laws;
mod unit;

pub use clock::{Clock, Timestamp};
pub use unit::TimeUnit;
