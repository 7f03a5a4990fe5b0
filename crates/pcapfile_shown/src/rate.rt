//! Durations, rates and averages.

ghost use Rattle.std.specs.Prelude.{◌≡◌, Some, option_map};
ghost use Rattle.pcapfile_shown.specs.Texts.{average_of, difference, hundredths_text, per_second, seconds_text, since_1970};

use pcap_file::pcapng::Timestamp;
use std::fmt;

/// The nanoseconds in a second.
const BILLION: u128 = 1_000_000_000;

/// A number of nanoseconds, written in seconds with nine decimal places.
#[derive(Clone, Copy, Debug)]
pub struct Seconds(pub u128);

/// A number of hundredths, written with two decimal places.
#[derive(Clone, Copy, Debug)]
pub struct Hundredths(pub u128);

impl fmt::Display for Seconds {
    ghost output = { λ time. Some (seconds_text time.0) };

    #[tactic(auto, using(crate::proofs::Padding::padded_nine))]
    fn fmt<W: fmt::Write>(&self, f: &mut fmt::Formatter<W>) -> fmt::Result {
        let seconds = self.0 / BILLION;
        let nanoseconds = self.0 % BILLION;
        write!(f, "{seconds}.{nanoseconds:09}")
    }
}

impl fmt::Display for Hundredths {
    ghost output = { λ number. Some (hundredths_text number.0) };

    #[tactic(auto, using(crate::proofs::Padding::padded_two))]
    fn fmt<W: fmt::Write>(&self, f: &mut fmt::Formatter<W>) -> fmt::Result {
        let whole = self.0 / 100;
        let hundredths = self.0 % 100;
        write!(f, "{whole}.{hundredths:02}")
    }
}

/// Returns the time from 1970 to this time. `None` for a time before 1970, and if its seconds don't fit in 64 bits.
pub fn seconds_since_1970(time: Timestamp) -> Option<Seconds>
    ensures { option_map (λ s. s.0) result ≡ since_1970 time }
{
    match u64::try_from(time.seconds) {
        Ok(seconds) => Some(Seconds(u128::from(seconds) * BILLION + u128::from(time.nanoseconds))),
        Err(_) => None,
    }
}

/// Returns the time between two packets. `None` if `seconds_since_1970` has no value for one of them, or the latest is before
/// the earliest.
pub fn duration_of(earliest: Timestamp, latest: Timestamp) -> Option<Seconds>
    ensures { option_map (λ s. s.0) result ≡ difference (since_1970 earliest) (since_1970 latest) }
{
    match (seconds_since_1970(earliest), seconds_since_1970(latest)) {
        (Some(first), Some(last)) if first.0 <= last.0 => Some(Seconds(last.0 - first.0)),
        _ => None,
    }
}

/// Returns the average share of `number` parts of a total, in hundredths of a unit, rounded down. `None` if `number` is 0.
pub fn hundredths_of(total: u64, number: u64) -> Option<Hundredths>
    ensures { option_map (λ h. h.0) result ≡ average_of total number }
{
    if number == 0 {
        return None;
    }
    Some(Hundredths(u128::from(total) * 100 / u128::from(number)))
}

/// Returns the hundredths of a unit per second, rounded down, for `count` units in this time. `None` if the time is 0.
pub fn hundredths_per_second(count: u64, time: Seconds) -> Option<Hundredths>
    ensures { option_map (λ h. h.0) result ≡ per_second count time.0 }
{
    if time.0 == 0 {
        return None;
    }
    Some(Hundredths(u128::from(count) * 100_000_000_000 / time.0))
}
