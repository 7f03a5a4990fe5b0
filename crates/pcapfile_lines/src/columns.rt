//! The columns of a packet in a CSV line.

ghost use Rattle.std.specs.Prelude.{◌≡◌, Some, None, IfOk, string_bytes};
ghost use Rattle.pcapfile_lines.specs.Lines.{columns_of as columns_told, column_text, csv_line, instant_in};

use crate::seen::Seen;
use pcap_times::Timestamp;
use std::alloc::{AllocError, Global};
use std::fmt;

/// The first line of a CSV table: the names of the columns.
pub const HEADING: &str = "index,seconds,nanoseconds,captured,original,interface\n";

/// A packet's columns after its number. Unknown values are `None`.
#[derive(Clone, Copy)]
pub(crate) struct Columns {
    /// Whole seconds since 1970.
    pub(crate) seconds: Option<u64>,
    /// The nanoseconds after these.
    pub(crate) nanoseconds: Option<u32>,
    /// The number of stored bytes.
    pub(crate) captured: Option<u64>,
    /// The number of bytes on the wire.
    pub(crate) original: Option<u32>,
    /// The number of the interface.
    pub(crate) interface: Option<u32>,
}

/// A column, empty if the number isn't known.
#[derive(Clone, Copy)]
pub(crate) struct Column(Option<u64>);

impl fmt::Display for Column {
    ghost output = { λ column. Some (column_text column.0) };

    fn fmt<W: fmt::Write>(&self, f: &mut fmt::Formatter<W>) -> fmt::Result {
        match self.0 {
            None => Ok(()),
            Some(number) => write!(f, "{number}"),
        }
    }
}

/// Returns the seconds and nanoseconds of a time, if its seconds since 1970 fit in 64 bits and aren't negative.
pub(crate) fn instant_at(time: Option<Timestamp>) -> Option<(u64, u32)>
    ensures { result ≡ instant_in time }
{
    let time = time?;
    match u64::try_from(time.seconds) {
        Ok(seconds) => Some((seconds, time.nanoseconds)),
        Err(_) => None,
    }
}

/// Returns the columns of a packet. `None` means a packet with a malformed body.
pub(crate) fn columns_of(packet: Option<Seen>) -> Columns
    ensures { result ≡ columns_told packet }
{
    let Some(seen) = packet else {
        return Columns {
            seconds: None,
            nanoseconds: None,
            captured: None,
            original: None,
            interface: None,
        };
    };
    let (seconds, nanoseconds) = match instant_at(seen.time) {
        None => (None, None),
        Some((seconds, nanoseconds)) => (Some(seconds), Some(nanoseconds)),
    };
    Columns {
        seconds,
        nanoseconds,
        captured: Some(seen.captured),
        original: Some(seen.original),
        interface: seen.interface,
    }
}

// Returns the column of a 32-bit number.
pub(crate) fn short(number: Option<u32>) -> Column
    ensures { result.0 ≡ number }
{
    match number {
        None => Column(None),
        Some(number) => Column(Some(u64::from(number))),
    }
}

/// Returns the line of a packet in a CSV table.
pub(crate) fn csv(alloc: Global, index: u64, columns: Columns) -> Result<String, AllocError>
    ensures { IfOk result (λ line. string_bytes line ≡ csv_line index columns) }
{
    let seconds = Column(columns.seconds);
    let nanoseconds = short(columns.nanoseconds);
    let captured = Column(columns.captured);
    let original = short(columns.original);
    let interface = short(columns.interface);
    format!(in alloc; "{index},{seconds},{nanoseconds},{captured},{original},{interface}\n")
}
