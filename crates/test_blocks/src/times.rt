//! Times of interfaces, with answers that were calculated by hand.

mod clocks;
mod units;
