//! Lenient reading for the words of the program `pcapfile`: the packets or blocks of a capture without its corrupt bytes, and
//! the repaired capture, which has no flaws.
#![tactic(auto)]

mod captured;
mod changes;
mod cut_short;
mod noted;
mod repaired;
mod report;
mod standing;
mod summary;

pub use captured::Captured;
pub use changes::{LeftOutHeads, Named, message_of};
pub use cut_short::{tell_cut_short, tell_fault, tell_unopened};
pub use repaired::Repaired;
pub use report::Reporting;
pub use standing::{BlockRows, FileRows, PacketRows, Standing, Stop};
pub use summary::{GUESSED, Outcome, REPAIRED, Summary};
