//! Damaged classic captures: whether the packet at a place can be trusted, and where packets go on after corrupt bytes; and the names
//! of the bytes that are left out of a damaged capture of either format.
//!
//! Lenient reading trusts the length that a packet states. In a damaged capture a wrong length hides the packets behind it. The
//! calls here compare a packet with what follows it.
#![tactic(auto)]

mod behind;
mod heads;
mod judged;
mod lengths;
mod row;
mod scrap;
mod search;
mod weight;

pub use behind::{begins_near, follows};
pub use heads::{NEAR, Numbers, begins_capture, head_at};
pub use judged::{Judged, judge};
pub use lengths::follow_by_length;
pub use scrap::{LeftOut, Scrap};
pub use search::{first_packets, resync};
pub use weight::{Weight, can_be_this_long, weigh};
