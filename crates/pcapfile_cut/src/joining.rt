//! Joining parts of a classic capture.

ghost use Rattle.pcapfile_cut.specs.Joins.{JoinsPart};

use crate::cutting::{Outcome, cut_more};
use crate::opening::Opening;
use crate::wanted::Wanted;
use pcap_core::PcapError;
use std::alloc::Global;
use std::io::{Read, Write};

/// The outcome of joining a part.
#[derive(Debug, Drop)]
pub enum Joined {
    /// The part's header can't be read, or is malformed. Nothing was written.
    Unopened(PcapError),
    /// The part's header has other bytes than the first part's. Nothing was written.
    OtherHeader,
    /// The part's packets were written, with this outcome.
    Packets(Outcome),
}

/// Appends the packets of a further part to those of the first one, which has this opening. The caller has read nothing of the
/// part.
///
/// The part's header must have the same bytes, and isn't written again. Errors after it are those of `cut_part`.
pub fn join_part<R: Read, W: Write>(
    alloc: Global,
    first: &Opening,
    input: &mut R,
    output: &mut W,
) -> Joined
    ensures { JoinsPart first.now (R.remaining input.old) (R.remaining input.new) (W.contents output.old) (W.contents output.new) result }
{
    let opening = match Opening::read(input, &mut false) {
        Ok(opening) => opening,
        Err(error) => return Joined::Unopened(error),
    };
    if !first.is_same(&opening) {
        return Joined::OtherHeader;
    }
    Joined::Packets(cut_more(alloc, first, input, output, Wanted::All))
}
