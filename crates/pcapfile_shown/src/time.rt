//! Times in UTC.

ghost use Rattle.pcapfile_lines.specs.Lines.{ShowsInstant};

use arrayvec::ArrayString;
use jiff_core::Timestamp as Instant;
use jiff_fmt::temporal::DateTimePrinter;
use pcap_file::pcapng::Timestamp;
use pcapfile_lines::instant_of;
use std::fmt;

/// A time, written in UTC as in RFC 3339, with nine decimal places. A time whose year is not from -9999 to 9999 is written as a
/// hyphen.
#[derive(Clone, Copy, Debug)]
pub struct Utc(pub Timestamp);

// Returns an instant in RFC 3339 form, with nine digits after the point.
fn instant_text(instant: Instant) -> ArrayString<33>
    ensures { ShowsInstant instant.nanosecond result.bytes }
{
    DateTimePrinter::new()
        .precision(Some(9))
        .timestamp_text(instant)
}

impl fmt::Display for Utc {
    fn fmt<W: fmt::Write>(&self, f: &mut fmt::Formatter<W>) -> fmt::Result {
        match instant_of(self.0) {
            None => write!(f, "-"),
            Some(instant) => f.write_str(instant_text(instant).as_str()),
        }
    }
}
