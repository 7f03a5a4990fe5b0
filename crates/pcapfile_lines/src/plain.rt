//! Lines with times in seconds since 1970.

ghost use Rattle.std.specs.Prelude.{◌≡◌, IfOk, string_bytes};
ghost use Rattle.pcapfile_lines.specs.Lines.{instant_in, plain_line, plain_text};

use crate::columns::instant_at;
use crate::seen::Seen;
use crate::utc::{line_at, refused_line};
use pcap_times::Timestamp;
use std::alloc::{AllocError, Global};

// Returns a time in seconds with nine decimal places, or a hyphen if its seconds are negative or need more than 64 bits.
fn seconds_text(alloc: Global, time: Option<Timestamp>) -> Result<String, AllocError>
    ensures { IfOk result (λ text. string_bytes text ≡ plain_text (instant_in time)) }
{
    match instant_at(time) {
        None => String::from_str(alloc, "-"),
        Some((seconds, nanoseconds)) => format!(in alloc; "{seconds}.{nanoseconds:09}"),
    }
}

/// Returns the line of a packet. `None` means a packet with a malformed body.
pub(crate) fn plain(alloc: Global, index: u64, packet: Option<Seen>) -> Result<String, AllocError>
    ensures { IfOk result (λ line. string_bytes line ≡ plain_line index packet) }
{
    let Some(seen) = packet else {
        return refused_line(alloc, index);
    };
    let time = seconds_text(alloc, seen.time)?;
    line_at(alloc, index, time.as_str(), seen)
}
