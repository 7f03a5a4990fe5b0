//! The merge of the packets of several captures.

ghost use Rattle.std.specs.Prelude.{◌≡◌, ◌≤◌, ◌<◌, length};
ghost use Rattle.pcap_items.specs.Writing.{WritesAll};
ghost use Rattle.pcapfile_merge.specs.Choosing.{IsChosen};
ghost use Rattle.pcapfile_merge.specs.Merging.{MergesAt, MergesRun, asked_of, next_number, outcome_of, output_of};
ghost use Rattle.pcapfile_merge.specs.Packets.{texts};
ghost use Rattle.pcapfile_merge.specs.Sources.{pending_of};

use crate::choice::{PacketOrder, choose};
use crate::source::Source;
use byteorder::LittleEndian;
use pcap_file::{PcapError, ResultParsing};
use pcap_items::stream::put;
use pcap_written::put_packet;
use std::io::{Read, Write};

/// The outcome of a merge.
#[derive(Debug, Drop)]
pub struct Merged {
    /// How many packets and other blocks were written.
    pub packets: u64,
    /// The number that the output's next interface gets.
    pub interfaces: u64,
    /// The error with which writing failed, if it did.
    pub fault: Option<PcapError>,
}

/// Writes the packets and the other blocks of the sources, merged in this order, and at most `most` of them. The interfaces among them get
/// the numbers from `interfaces` on, in the order of the output.
pub fn merge_packets<R: Read + Drop, W: Write>(
    sources: &mut [Source<R>],
    order: PacketOrder,
    writer: &mut W,
    most: u64,
    interfaces: u64,
) -> Merged
    ensures most { result.packets ≤ most }
    ensures run { MergesRun R.remaining sources.old sources.new (output_of (W.contents writer.old) interfaces)
        (output_of (W.contents writer.new) result.interfaces) (asked_of order most) result }
{
    let mut packets = 0;
    let mut next = interfaces;
    let ended = merge_sources(sources, order, writer, most, &mut packets, &mut next);
    Merged {
        packets,
        interfaces: next,
        fault: ended.err(),
    }
}

// Writes what the sources give, merged in this order, counts it, and numbers the interfaces.
fn merge_sources<R: Read + Drop, W: Write>(
    sources: &mut [Source<R>],
    order: PacketOrder,
    writer: &mut W,
    most: u64,
    packets: &mut u64,
    interfaces: &mut u64,
) -> ResultParsing<()>
    requires { packets.old ≡ 0 }
    ensures most { packets.new ≤ most }
    ensures run { MergesRun R.remaining sources.old sources.new (output_of (W.contents writer.old) interfaces.old)
        (output_of (W.contents writer.new) interfaces.new) (asked_of order most) (outcome_of packets.new interfaces.new result) }
{
    while *packets < most {
        let place = match choose(sources, order) {
            None => return Ok(()),
            Some(place) => place,
        };
        merge_at(sources, place, writer, interfaces)?;
        *packets += 1;
    }
    Ok(())
}

// Writes what the chosen source gives, numbers it if it is an interface, and takes what the source gives next.
#[inline(always)]
fn merge_at<R: Read + Drop, W: Write>(
    sources: &mut [Source<R>],
    place: usize,
    writer: &mut W,
    interfaces: &mut u64,
) -> ResultParsing<()>
    requires chosen { IsChosen sources.old place }
    requires within { place < length sources.old }
    ensures { MergesAt R.remaining place sources.old sources.new (output_of (W.contents writer.old) interfaces.old)
        (output_of (W.contents writer.new) interfaces.new) result }
{
    let source = &mut sources[place];
    put_held(source, writer)?;
    let number = *interfaces;
    *interfaces = next_number(source.holds_interface(), number);
    source.advance(number);
    Ok(())
}

// Returns the number of the output's next interface, after one more packet, or after one more interface with this number.
#[inline(always)]
fn next_number(is_interface: bool, number: u64) -> u64
    ensures { result ≡ next_number is_interface number }
{
    if is_interface {
        number.saturating_add(1)
    } else {
        number
    }
}

// Writes what a source holds. `?` before `Ok(())` saves the copy of a result, since this runs for each packet.
#[inline(always)]
fn put_held<R: Read + Drop, W: Write>(source: &Source<R>, writer: &mut W) -> ResultParsing<()>
    ensures { WritesAll (W.contents writer.old) (W.contents writer.new) (texts (pending_of source.now)) result }
{
    let Some(pending) = &source.taken.next else {
        return Ok(());
    };
    let data = source.reader.data(pending);
    let mut has_failed = false;
    if pending.is_made {
        put(writer, &mut has_failed, data)?;
        return Ok(());
    }
    put_packet::<W, LittleEndian>(
        writer,
        &mut has_failed,
        pending.number,
        pending.units,
        data,
        pending.original_len,
    )?;
    Ok(())
}
