//! Lines with times in UTC.

ghost use Rattle.std.specs.Prelude.{◌≡◌, ◌<◌, IfOk, MatchOption, string_bytes};
ghost use Rattle.jiff_core.specs.Timestamp.{IsTimestampNanos};
ghost use Rattle.pcapfile_lines.specs.Lines.{IsUtcLine, IsUtcTextOr, ShowsInstant, interface_text, nanoseconds_of, refused_text, timed_line};

use crate::seen::Seen;
use jiff_core::Timestamp as Instant;
use jiff_fmt::temporal::DateTimePrinter;
use pcap_times::Timestamp;
use std::alloc::{AllocError, Global};

/// The nanoseconds in a second.
const BILLION: i128 = 1_000_000_000;

/// A number of seconds greater than the calendar has before or after 1970.
const MOST: i128 = 1_000_000_000_000;

/// Returns the time as an instant of the calendar, or `None` if its year isn't within -9999 to 9999.
pub fn instant_of(time: Timestamp) -> Option<Instant>
    ensures { MatchOption result (IsTimestampNanos (nanoseconds_of time) → ⊥) (λ instant. instant.nanosecond ≡ nanoseconds_of time) }
{
    if time.seconds < -MOST || time.seconds > MOST {
        return None;
    }
    Instant::from_nanosecond(time.seconds * BILLION + i128::from(time.nanoseconds)).ok()
}

// Returns an instant in RFC 3339 form, with nine digits after the point.
#[tactic(auto, using(crate::proofs::Times::printer_shows))]
fn instant_text(alloc: Global, instant: Instant) -> Result<String, AllocError>
    ensures { IfOk result (λ text. ShowsInstant instant.nanosecond (string_bytes text)) }
{
    let text = DateTimePrinter::new()
        .precision(Some(9))
        .timestamp_text(instant);
    String::from_str(alloc, text.as_str())
}

/// Returns a time in UTC as in RFC 3339, with nine decimal places, or this other text if there is no time or its year isn't within -9999
/// to 9999.
#[tactic(auto, using(crate::proofs::Times::instant_shows))]
pub fn utc_text(alloc: Global, time: Option<Timestamp>, other: &str) -> Result<String, AllocError>
    ensures { IfOk result (λ text. IsUtcTextOr other.now time (string_bytes text)) }
{
    let Some(time) = time else {
        return String::from_str(alloc, other);
    };
    match instant_of(time) {
        None => String::from_str(alloc, other),
        Some(instant) => instant_text(alloc, instant),
    }
}

// Returns the end of a line: the number of an interface, if there is one.
fn interface_of(alloc: Global, interface: Option<u32>) -> Result<String, AllocError>
    ensures { IfOk result (λ text. string_bytes text ≡ interface_text interface) }
{
    match interface {
        None => String::from_str(alloc, ""),
        Some(number) => format!(in alloc; " {number}"),
    }
}

// Returns the line of a packet with this time and this end.
fn line_with(
    alloc: Global,
    index: u64,
    time: &str,
    seen: Seen,
    interface: &str,
) -> Result<String, AllocError>
    ensures { IfOk result (λ line. string_bytes line ≡ timed_line index time.now seen.captured seen.original interface.now) }
{
    let captured = seen.captured;
    let original = seen.original;
    format!(in alloc; "{index} {time} {captured}/{original}{interface}\n")
}

/// Returns the line of a packet with this text of its time.
pub(crate) fn line_at(
    alloc: Global,
    index: u64,
    time: &str,
    seen: Seen,
) -> Result<String, AllocError>
    ensures { IfOk result (λ line. string_bytes line ≡ timed_line index time.now seen.captured seen.original (interface_text seen.interface)) }
{
    let interface = interface_of(alloc, seen.interface)?;
    line_with(alloc, index, time, seen, interface.as_str())
}

/// Returns the line of a packet with a malformed body.
pub(crate) fn refused_line(alloc: Global, index: u64) -> Result<String, AllocError>
    ensures { IfOk result (λ line. string_bytes line ≡ refused_text index) }
{
    format!(in alloc; "{index} refused\n")
}

/// Returns the line of a packet. `None` means a packet with a malformed body.
pub(crate) fn utc(alloc: Global, index: u64, packet: Option<Seen>) -> Result<String, AllocError>
    ensures { IfOk result (λ line. IsUtcLine index packet (string_bytes line)) }
{
    let Some(seen) = packet else {
        return refused_line(alloc, index);
    };
    let time = utc_text(alloc, seen.time, "-")?;
    line_at(alloc, index, time.as_str(), seen)
}
