//! Laws of times. Each contract is the law.

ghost use Rattle.pcap_times.specs.Times.{unit_of, units_in_second};
ghost use Rattle.std.specs.Prelude.{◌≡◌, ◌↔◌, ◌⊎◌, ◌^◌, ◌<◌, ◌<ℤ◌, IsTrue};

use crate::{Clock, TimeUnit, Timestamp};

/// Compares two units, which are equal if they are the same variant with the same exponent.
pub fn units_are_equal(left: TimeUnit, right: TimeUnit) -> bool
    ensures { IsTrue result ↔ (left ≡ right) }
{
    left == right
}

/// Compares two clocks, which are equal if their units and offsets are equal.
pub fn clocks_are_equal(left: Clock, right: Clock) -> bool
    ensures { IsTrue result ↔ (left ≡ right) }
{
    left == right
}

/// Compares two times, which are equal if their seconds and nanoseconds are equal.
pub fn times_are_equal(left: Timestamp, right: Timestamp) -> bool
    ensures { IsTrue result ↔ (left ≡ right) }
{
    left == right
}

/// Returns whether a time is before another: first by seconds, and if these are equal, by nanoseconds.
pub fn times_are_ordered(left: Timestamp, right: Timestamp) -> bool
    ensures { IsTrue result ↔ ((left.seconds <ℤ right.seconds) ⊎ ((left.seconds ≡ right.seconds) × (left.nanoseconds < right.nanoseconds))) }
{
    left < right
}

/// Returns a microsecond, the unit that the byte 6 names. A million of them are a second.
pub fn microsecond_is_a_millionth() -> TimeUnit
    ensures named { result ≡ unit_of 6 }
    ensures million { units_in_second result ≡ 10 ^ 6 }
{
    TimeUnit::MICROSECOND
}
