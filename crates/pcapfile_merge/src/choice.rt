//! The choice of the capture that gives the next packet.

ghost use Rattle.std.specs.Prelude.{MatchOption};
ghost use Rattle.pcapfile_merge.specs.Choosing.{BestWith, Chooses, HaveEnded, IsNext};
ghost use Rattle.pcapfile_merge.specs.Packets.{TellsBeforeIn};

use crate::packet::{Pending, is_before};
use crate::source::Source;
use pcap_file::pcapng::Timestamp;

/// The order in which a merge takes the packets of several captures.
#[derive(Clone, Copy, Debug, PartialEq, Eq)]
pub enum PacketOrder {
    /// The earliest of the next packets of all captures follows. Of packets of one time, that of the first capture follows.
    ByTime,
    /// All packets of a capture follow those of the captures before it.
    ByFile,
}

/// The index of a source, and the time of its next packet.
#[derive(Clone, Copy)]
pub(crate) struct Best {
    pub(crate) place: usize,
    pub(crate) time: Option<Timestamp>,
}

// Returns whether a packet with the first time goes before one with the second, although its capture comes later. By file, none does.
#[inline(always)]
fn is_before_in(order: PacketOrder, left: Option<Timestamp>, right: Option<Timestamp>) -> bool
    ensures { TellsBeforeIn order left right result }
{
    match order {
        PacketOrder::ByTime => is_before(left, right),
        PacketOrder::ByFile => false,
    }
}

// Returns the source at `place` if its packet `next` goes before that of the best so far, or else the best so far.
#[inline(always)]
fn best_with(
    order: PacketOrder,
    best: Option<Best>,
    place: usize,
    next: &Option<Pending>,
) -> Option<Best>
    ensures { BestWith order best place next.now result }
{
    let Some(pending) = next else {
        return best;
    };
    let time = pending.time;
    let Some(found) = best else {
        return Some(Best { place, time });
    };
    if !is_before_in(order, time, found.time) {
        return best;
    }
    Some(Best { place, time })
}

/// Returns the index of the source that gives the next packet in this order, or None if no source has a packet.
#[inline(always)]
pub(crate) fn choose<R>(sources: &[Source<R>], order: PacketOrder) -> Option<usize>
    ensures { Chooses order sources.now result }
{
    let mut best = None;
    for place in 0..sources.len() {
        best = best_with(order, best, place, sources[place].next());
    }
    match best {
        None => None,
        Some(best) => Some(best.place),
    }
}

/// Returns the source that gives the next packet or block of a merge in this order, or None if no source has anything left.
pub fn next_source<R>(sources: &[Source<R>], order: PacketOrder) -> Option<&Source<R>>
    ensures { MatchOption result (HaveEnded sources.now) (λ source. IsNext order sources.now source.now) }
{
    match choose(sources, order) {
        None => None,
        Some(place) => Some(&sources[place]),
    }
}
