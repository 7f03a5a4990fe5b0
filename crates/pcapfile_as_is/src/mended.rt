//! Repairing packets, so that they have no flaw.

ghost use Rattle.std.specs.Prelude.{◌≡◌};
ghost use Rattle.pcap_classic.specs.PacketText.{content_of};
ghost use Rattle.pcap_tolerant.specs.AsIs.{as_it_is};
ghost use Rattle.pcapfile_as_is.specs.Repaired.{repaired_of, repaired_time};

use pcap_classic::TsResolution;
use pcap_classic::pcap::{PACKET_LIMIT, Packet, PacketHeader};
use pcap_core::CowBytes;
use pcap_tolerant::PacketAsIs;

/// The latest time that a packet can have at either timestamp resolution, in seconds and nanoseconds.
const LATEST: (u32, u32) = (4_294_967_295, 999_999_000);

// Returns the time of a repaired packet in seconds and nanoseconds.
fn time_of(packet: &PacketAsIs<'_>, ts_resolution: TsResolution) -> (u32, u32)
    ensures { result ≡ repaired_time ts_resolution (as_it_is packet.now).head }
{
    let nanos = match ts_resolution {
        TsResolution::NanoSecond => u64::from(packet.fraction),
        TsResolution::MicroSecond => 1000 * u64::from(packet.fraction),
    };
    if nanos <= 4_294_967_295 {
        return (packet.ts_sec, nanos as u32);
    }
    let time = packet.timestamp(ts_resolution);
    let seconds = time.as_secs();
    if seconds > 4_294_967_295 {
        return LATEST;
    }
    (seconds as u32, time.subsec_nanos())
}

/// Returns the packet closest to this one that breaks no rule. A packet that breaks none is unchanged.
///
/// A fraction of a second that is too large is carried into the seconds. If these don't fit, the time is the latest possible one.
/// A packet of more than 262144 bytes is cut to its first 262144 bytes. The original length is reduced to at most 262144, and raised
/// to at least the stored length.
pub fn repaired<'a>(packet: &PacketAsIs<'a>, ts_resolution: TsResolution) -> Packet<'a>
    ensures { content_of result ≡ repaired_of ts_resolution (as_it_is packet.now) }
{
    let (ts_sec, ts_nsec) = time_of(packet, ts_resolution);
    let len = packet.data.len().min(PACKET_LIMIT as usize);
    let (bytes, _) = packet.data.split_at(len);
    let incl_len = len as u32;
    let orig_len = packet.orig_len.min(PACKET_LIMIT).max(incl_len);
    Packet {
        header: PacketHeader::new(ts_sec, ts_nsec, incl_len, orig_len),
        data_: CowBytes::Borrowed(bytes),
    }
}
