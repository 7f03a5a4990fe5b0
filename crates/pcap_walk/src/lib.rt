//! A walk over the items of a capture: a [`Walker`] knows a format, a [`Sink`] takes the items, and [`walk`] joins the two.
#![tactic(auto)]

mod blocks;
mod counting;
mod packets;
mod walking;

pub use counting::{Counting, Never, count_items, count_packets};
pub use packets::Packets;
pub use walking::{Ended, Front, Sink, Walked, Walker, walk};
