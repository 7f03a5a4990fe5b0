//! Repairing packets and writing them.

ghost use Rattle.std.specs.Prelude.{◌≡◌, OnOk};
ghost use Rattle.pcap_core.specs.Codec.{number_bytes};
ghost use Rattle.pcap_classic.specs.PacketText.{content_of};
ghost use Rattle.pcap_classic.specs.Written.{record_bytes};
ghost use Rattle.pcap_program.specs.Lines.{WritesLine};
ghost use Rattle.pcapfile_as_is.specs.Repaired.{repaired_of};

use crate::counted::Spot;
use crate::mended::repaired;
use crate::teller::Teller;
use byteorder::{BigEndian, LittleEndian};
use pcap_classic::TsResolution;
use pcap_classic::pcap::Packet;
use pcap_core::Endianness;
use pcap_program::{Exit, put_line};
use pcap_tolerant::PacketAsIs;
use std::alloc::{AllocError, Global};
use std::io::Write;

/// A writer that repairs each packet, writes it in the byte order of its capture, and reports its changes.
#[derive(Debug, Drop)]
pub struct Repairs<E> {
    /// The byte order of the capture.
    pub order: Endianness,
    /// The text before each line of the report.
    pub prefix: String,
    /// The output of the report. A failed write there stops nothing.
    pub notes: E,
    /// The buffer for a packet's bytes.
    pub room: Vec<u8>,
}

// Puts the bytes of a packet into the buffer.
fn put_bytes(
    room: &mut Vec<u8>,
    order: Endianness,
    ts_resolution: TsResolution,
    packet: &Packet<'_>,
) -> Result<(), AllocError>
    ensures { OnOk result (room.new.items ≡ record_bytes (number_bytes order) ts_resolution (content_of packet.now)) }
{
    let head = match order {
        Endianness::Big => packet.header.to_bytes::<BigEndian>(ts_resolution),
        Endianness::Little => packet.header.to_bytes::<LittleEndian>(ts_resolution),
    };
    room.clear();
    room.extend_from_slice(&head)?;
    room.extend_from_slice(packet.data_.as_slice())
}

// Writes a packet by way of the buffer.
fn put_made<W: Write>(
    output: &mut W,
    room: &mut Vec<u8>,
    order: Endianness,
    ts_resolution: TsResolution,
    packet: &Packet<'_>,
) -> Result<(), Exit>
    ensures { WritesLine (λ line. line ≡ record_bytes (number_bytes order) ts_resolution (content_of packet.now))
        (W.contents output.old) (W.contents output.new) result }
{
    put_bytes(room, order, ts_resolution, packet)?;
    put_line(output, room.as_slice())
}

impl<E: Write> Repairs<E> {
    // Reports the changes of the packet with this number, at this offset.
    fn tell(&mut self, number: u64, place: u64, packet: &PacketAsIs<'_>, made: &Packet<'_>)
        ensures order { self.new.order ≡ self.old.order }
        ensures prefix { self.new.prefix ≡ self.old.prefix }
    {
        if !packet.flaws.is_broken() {
            return;
        }
        let prefix = self.prefix.as_str();
        let header = made.header;
        if packet.flaws.fraction_too_large {
            let (fraction, seconds, nanos) = (packet.fraction, header.ts_sec, header.ts_nsec);
            let _ = writeln!(
                self.notes,
                "{prefix}packet {number} at byte {place}: a fraction of {fraction} is too large, so its time is {seconds}.{nanos:09}"
            );
        }
        if header.incl_len != packet.incl_len {
            let (stored, kept) = (packet.incl_len, header.incl_len);
            let _ = writeln!(
                self.notes,
                "{prefix}packet {number} at byte {place}: the first {kept} of its {stored} bytes are kept"
            );
        }
        if header.orig_len != packet.orig_len {
            let (stated, written) = (packet.orig_len, header.orig_len);
            let _ = writeln!(
                self.notes,
                "{prefix}packet {number} at byte {place}: its original length is {written} and not {stated}"
            );
        }
    }
}

impl<E: Write> Teller for Repairs<E> {
    ghost use Rattle.std.specs.Prelude.{ℕ, List, string_bytes};
    ghost use Rattle.pcap_core.specs.declared.common.Endianness.{Endianness as Order};

    ghost Setting = { Order × List ℕ };

    ghost setting = { λ repairs. (repairs.order, string_bytes repairs.prefix) };

    ghost text = { λ setting r number place packet. record_bytes (number_bytes setting.0) r (repaired_of r packet) };

    fn put<W: Write>(
        &mut self,
        alloc: Global,
        output: &mut W,
        ts_resolution: TsResolution,
        at: Spot,
        packet: &PacketAsIs<'_>,
    ) -> Result<(), Exit> {
        let made = repaired(packet, ts_resolution);
        self.tell(at.number, at.place, packet, &made);
        put_made(output, &mut self.room, self.order, ts_resolution, &made)
    }
}
