//! Packets that get another time.

ghost use Rattle.std.specs.Prelude.{◌≡◌};
ghost use Rattle.pcapfile_cut.specs.Moves.{is_in_units, moved, moved_by, stated_at};

use crate::selection::nanoseconds;
use pcap_classic::TsResolution;
use pcap_classic::pcap::PacketHeader;

/// The nanoseconds in a second.
pub(crate) const SECOND: u64 = 1_000_000_000;

/// The first time whose seconds don't fit 32 bits, in nanoseconds.
const TIMES_END: u64 = 4_294_967_296_000_000_000;

/// A change of all times, in nanoseconds or in units of an interface's clock.
#[derive(Clone, Copy, Debug, PartialEq, Eq)]
pub enum Shift {
    /// Each time gets later by so many units.
    Later(u64),
    /// Each time gets earlier by so many units.
    Earlier(u64),
}

impl Shift {
    /// Returns the time that is later or earlier. `None` if it is below 0 or needs more than 64 bits.
    pub fn moved(self, time: u64) -> Option<u64>
        ensures { result ≡ moved_by self time }
    {
        match self {
            Shift::Later(units) => time.checked_add(units),
            Shift::Earlier(units) => time.checked_sub(units),
        }
    }
}

// Returns whether a time in nanoseconds is a whole number of units of this resolution.
fn is_whole(ts_resolution: TsResolution, time: u64) -> bool
    ensures { result ≡ is_in_units ts_resolution time }
{
    match ts_resolution {
        TsResolution::MicroSecond => time % 1000 == 0,
        TsResolution::NanoSecond => true,
    }
}

// Returns the header with this time in nanoseconds. None if no packet of this resolution can have it.
fn stated(ts_resolution: TsResolution, head: &PacketHeader, time: u64) -> Option<PacketHeader>
    ensures { result ≡ stated_at ts_resolution head.now (Some time) }
{
    if !is_whole(ts_resolution, time) || time >= TIMES_END {
        return None;
    }
    Some(PacketHeader {
        ts_sec: (time / SECOND) as u32,
        ts_nsec: (time % SECOND) as u32,
        ..*head
    })
}

// Returns the header with the moved time. None if no packet of this resolution can have that time.
pub(crate) fn move_head(
    ts_resolution: TsResolution,
    shift: Shift,
    head: &PacketHeader,
) -> Option<PacketHeader>
    ensures { result ≡ moved ts_resolution shift head.now }
{
    match shift.moved(nanoseconds(head)) {
        Some(time) => stated(ts_resolution, head, time),
        None => None,
    }
}
