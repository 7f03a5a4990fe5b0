//! Converting and merging captures, over any streams, for the words `convert` and `merge` of the program `pcapfile`.
#![tactic(auto)]

mod converting;
mod left_out;
mod merging;
mod opening;
mod placing;
mod with_fcs;

pub use converting::{Converted, convert_stream, tell_lost_bits};
pub use left_out::LeftOut;
pub use merging::{merge_readers, tell_left_out};
pub use opening::{Joining, Opened};
