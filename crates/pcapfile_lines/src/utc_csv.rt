//! Lines of a CSV table with times in UTC.

ghost use Rattle.std.specs.Prelude.{◌≡◌, IfOk, string_bytes};
ghost use Rattle.pcapfile_lines.specs.Lines.{IsUtcCsvLine, utc_csv_row};

use crate::columns::short;
use crate::seen::Seen;
use crate::utc::utc_text;
use std::alloc::{AllocError, Global};

/// The first line of a CSV table with times in UTC: the names of the columns.
pub const UTC_HEADING: &str = "index,time,captured,original,interface\n";

// Returns the line of a packet with this text of its time.
fn row(alloc: Global, index: u64, time: &str, seen: Seen) -> Result<String, AllocError>
    ensures { IfOk result (λ line. string_bytes line ≡ utc_csv_row index time.now seen) }
{
    let captured = seen.captured;
    let original = seen.original;
    let interface = short(seen.interface);
    format!(in alloc; "{index},{time},{captured},{original},{interface}\n")
}

/// Returns the line of a packet in a CSV table with times in UTC. `None` means a packet with a malformed body.
pub(crate) fn utc_csv(alloc: Global, index: u64, packet: Option<Seen>) -> Result<String, AllocError>
    ensures { IfOk result (λ line. IsUtcCsvLine index packet (string_bytes line)) }
{
    let Some(seen) = packet else {
        return format!(in alloc; "{index},,,,\n");
    };
    let time = utc_text(alloc, seen.time, "")?;
    row(alloc, index, time.as_str(), seen)
}
