//! The data of classic packet records that the totals use.

ghost use Rattle.std.specs.Prelude.{◌≡◌, []};
ghost use Rattle.pcap_file.specs.Placed.{carried, time_in};
ghost use Rattle.pcapfile_info.specs.Sights.{captured_as, captured_seen};

use crate::seen::Seen;
use pcap_file::pcap::PacketHeader;
use pcap_file::pcapng::Timestamp;

/// The nanoseconds in a second.
const BILLION: u32 = 1_000_000_000;

// Returns the time of a packet.
fn time_of(header: PacketHeader) -> Timestamp
    ensures { result ≡ time_in (carried (captured_as header [])) }
{
    let seconds = u64::from(header.ts_sec) + u64::from(header.ts_nsec / BILLION);
    Timestamp {
        seconds: i128::from(seconds),
        nanoseconds: header.ts_nsec % BILLION,
    }
}

/// Returns what the totals use of a packet.
pub(crate) fn seen_of(header: PacketHeader, bytes: &[u8]) -> Seen
    ensures { result ≡ captured_seen (captured_as header bytes.now) }
{
    Seen {
        interface: Some(0),
        time: Some(time_of(header)),
        stored: bytes.len() as u64,
        original: header.orig_len,
    }
}
