//! Streams that remember whether a call failed, buffers that are filled from them on request, and copies over both.

mod as_they_came;
mod copying;
mod fill;
mod filling;
mod held;
mod reading;
mod told;
mod writing;

pub use as_they_came::{AsTheyCame, Holding};
pub use copying::{Ahead, AheadShown, Sent, Tally, copy_buffers, copy_items};
pub use fill::Fill;
pub use filling::{HasHead, fill_item, take_item};
pub use held::Held;
pub use reading::{fill_array, take_bytes};
pub(crate) use reading::{read_exactly, read_once};
pub use told::Told;
pub use writing::{Torn, put, put_or_tear};
