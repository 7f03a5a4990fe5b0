//! The packets of a capture that a user selects, for the words of the program `pcapfile` that read captures.
#![tactic(auto)]

mod account;
mod ahead;
mod blocks;
mod choice;
mod filters;
mod latest;
pub mod ranges;
mod reading;
mod selected;
mod selecting;
mod source;
mod spans;
mod tell;
mod times;

pub use account::Account;
pub use blocks::BlockSource;
pub use choice::{Choice, load_filter, tests_of};
pub use reading::Reading;
pub use selected::Selected;
pub use selecting::{Selecting, Tests};
pub use source::{Exceptions, PacketSource, Source, flushed};
pub use spans::Spans;
pub use tell::{tell_account, tell_exceptions, tell_outcome};
pub use times::{Moment, Zone, shift_of_text};
