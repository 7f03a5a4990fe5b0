//! Clocks of interfaces, and timestamps.

ghost use Rattle.pcap_times.specs.Times.{IsTimeOf};

use crate::unit::TimeUnit;

/// The clock of an interface: how it counts time ('Interface Description Block', if_tsresol and if_tsoffset).
#[derive(Clone, Copy, Debug, PartialEq, Eq)]
pub struct Clock {
    /// The unit in which the interface counts.
    pub unit: TimeUnit,
    /// The seconds that are added to each time.
    pub offset: i64,
}

/// A point in time, in seconds and nanoseconds.
#[derive(Clone, Copy, Debug, PartialEq, Eq, PartialOrd, Ord)]
pub struct Timestamp {
    /// Whole seconds since 1970-01-01 00:00:00 UTC, negative before then. They have 128 bits, since the sum of an offset and
    /// a 64-bit number of seconds does not always fit in 64 bits.
    pub seconds: i128,
    /// Whole nanoseconds after those seconds, below 1000000000.
    pub nanoseconds: u32,
}

impl Clock {
    /// Returns the time of this many units, rounded down to whole nanoseconds.
    pub fn timestamp(self, ticks: u64) -> Timestamp
        ensures { IsTimeOf self ticks result }
    {
        let (seconds, nanoseconds) = self.unit.split(ticks);
        Timestamp {
            seconds: i128::from(seconds) + i128::from(self.offset),
            nanoseconds,
        }
    }
}
