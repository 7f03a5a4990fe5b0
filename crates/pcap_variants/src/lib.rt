//! Classic captures whose packets have further bytes in their heads, and the plain captures that have the same packets.
#![tactic(auto)]

mod front;
mod heads;
mod plain;
mod recognized;
mod variant;

pub use plain::Plain;
pub use recognized::variant_of;
pub use variant::{Further, Variant};
