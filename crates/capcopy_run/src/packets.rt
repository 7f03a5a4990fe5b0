//! Listing the packets of a classic capture, with any form of lines.

ghost use Rattle.std.specs.Prelude.{◌≡◌, ◌≤◌, ◌<◌, ◌+◌, ℕ, List, length, true, IfSome, IfOk, IfErr};
ghost use Rattle.pcap_core.specs.Answer.{number_in};
ghost use Rattle.pcap_core.specs.declared.common.Endianness.{Endianness};
ghost use Rattle.pcap_classic.specs.declared.common.TsResolution.{TsResolution};
ghost use Rattle.pcap_classic.specs.declared.pcap.packet.PacketHeader.{PacketHeader};
ghost use Rattle.pcap_classic.specs.PacketText.{packet_limit, Captured};
ghost use Rattle.pcap_classic.specs.Packets.{packet_format};
ghost use Rattle.pcap_program.specs.Exits.{IsMemoryExit, exit_of};
ghost use Rattle.capcopy_run.specs.Exits.{IsOfKnownWord};
ghost use Rattle.pcap_program.specs.Lines.{WritesLine};
ghost use Rattle.capcopy_run.specs.Listing.{ListsUntil};
ghost use Rattle.capcopy_run.specs.PacketLines.{of_header, packets_in};
ghost use Rattle.capcopy_run.specs.Turns.{TurnGives, WalkGives, turn, walk};

use crate::input::skip_exact;
use crate::items::{Lister, list_items};
use byteorder::{BigEndian, ByteOrder, LittleEndian};
use pcap_file::pcap::{Packet, PacketHeader, PcapHeader};
use pcap_file::{Endianness, TsResolution};
use pcap_program::Exit;
use std::alloc::Global;
use std::io::{BufRead, Write};

/// A writer of lines for packets.
pub trait PacketLine {
    ghost Setting: { Type 0 };

    ghost grows: { Type 0 };

    ghost line: { Setting → ℕ → PacketHeader → List ℕ → Type 0 };

    ghost setting: { Self → Setting };

    /// Writes the line of the packet with this header at this index.
    fn write_line<W: Write>(
        &mut self,
        alloc: Global,
        output: &mut W,
        index: u64,
        header: PacketHeader,
    ) -> Result<(), Exit>
        ensures same { setting self.new ≡ setting self.old }
        ensures memory { IfErr result (λ exit. IsMemoryExit exit → grows) }
        ensures writes { WritesLine (line (setting self.old) index header) (W.contents output.old) (W.contents output.new) result };
}

// Writes a line for each whole packet record at the front of these bytes, and returns the number of bytes of these records. Its parameters
// are those of `Lister::list_shown`, with two fields of `Packets`.
fn list_shown<L: PacketLine, B: ByteOrder, W: Write>(
    alloc: Global,
    lines: &mut L,
    ts_resolution: TsResolution,
    shown: &[u8],
    output: &mut W,
    listed: &mut u64,
    most: u64,
) -> Result<usize, Exit>
    requires { listed.old ≤ most }
    ensures same { L.setting lines.new ≡ L.setting lines.old }
    ensures counts { (listed.old ≤ listed.new) × (listed.new ≤ most) }
    ensures within { IfOk result (λ used. used ≤ length shown.now) }
    ensures memory { IfErr result (λ exit. IsMemoryExit exit → L.grows) }
    ensures walks { WalkGives (of_header (L.line (L.setting lines.old))) (packet_format packet_limit B.number_of ts_resolution) shown.now
        (walk tt (W.contents output.old) listed.old) (walk tt (W.contents output.new) listed.new) most result }
{
    let mut rest = shown;
    while *listed < most {
        let Ok((after, packet)) = Packet::from_slice::<B>(rest, ts_resolution) else {
            break;
        };
        lines.write_line(alloc, output, *listed + 1, packet.header)?;
        *listed += 1;
        rest = after;
    }
    Ok(shown.len() - rest.len())
}

// Writes the line of the packet at the front of the input, after all of its data has been read. Its parameters are those of
// `Lister::list_torn`, with two fields of `Packets`.
fn list_torn<L: PacketLine, B: ByteOrder, R: BufRead, W: Write>(
    alloc: Global,
    lines: &mut L,
    ts_resolution: TsResolution,
    input: &mut R,
    output: &mut W,
    listed: &mut u64,
    most: u64,
) -> Result<bool, Exit>
    requires { listed.old < most }
    ensures same { L.setting lines.new ≡ L.setting lines.old }
    ensures counts { IfOk result (λ more. listed.new ≡ listed.old + 1) }
    ensures memory { IfErr result (λ exit. IsMemoryExit exit → L.grows) }
    ensures turn { TurnGives (of_header (L.line (L.setting lines.old))) (packet_format packet_limit B.number_of ts_resolution)
        (turn tt (R.remaining input.old) (W.contents output.old) listed.old)
        (turn tt (R.remaining input.new) (W.contents output.new) listed.new) most result }
{
    let header = PacketHeader::from_reader::<R, B>(input, ts_resolution)?;
    skip_exact(input, header.incl_len as usize)?;
    lines.write_line(alloc, output, *listed + 1, header)?;
    *listed += 1;
    Ok(true)
}

// The packets of a capture, and the writer of their lines.
#[derive(Drop)]
struct Packets<L> {
    lines: L,
    order: Endianness,
    ts_resolution: TsResolution,
}

impl<L: PacketLine> Lister for Packets<L> {
    ghost Setting = { L.Setting × Endianness × TsResolution };

    ghost State = { Unit {0} };

    ghost Value = { Captured };

    ghost grows = { L.grows };

    ghost is_line = { λ setting. of_header (L.line setting.0) };

    ghost format = { λ setting. packet_format packet_limit (number_in setting.1) setting.2 };

    ghost setting = { λ packets. (L.setting packets.lines, packets.order, packets.ts_resolution) };

    ghost state = { λ packets. tt };

    fn list_shown<W: Write>(
        &mut self,
        alloc: Global,
        shown: &[u8],
        output: &mut W,
        listed: &mut u64,
        most: u64,
    ) -> Result<usize, Exit> {
        let resolution = self.ts_resolution;
        let lines = &mut self.lines;
        match self.order {
            Endianness::Big => {
                list_shown::<L, BigEndian, W>(alloc, lines, resolution, shown, output, listed, most)
            }
            Endianness::Little => list_shown::<L, LittleEndian, W>(
                alloc, lines, resolution, shown, output, listed, most,
            ),
        }
    }

    fn list_torn<R: BufRead, W: Write>(
        &mut self,
        alloc: Global,
        input: &mut R,
        output: &mut W,
        listed: &mut u64,
        most: u64,
    ) -> Result<bool, Exit> {
        let resolution = self.ts_resolution;
        let lines = &mut self.lines;
        match self.order {
            Endianness::Big => list_torn::<L, BigEndian, R, W>(
                alloc, lines, resolution, input, output, listed, most,
            ),
            Endianness::Little => list_torn::<L, LittleEndian, R, W>(
                alloc, lines, resolution, input, output, listed, most,
            ),
        }
    }
}

/// Writes a line for each packet of the capture in the input, up to `most` lines.
///
/// Returns an error for a malformed or truncated rest after it has written the lines of the packets before it.
pub fn list_packets<L: PacketLine + Drop, R: BufRead, W: Write>(
    alloc: Global,
    lines: L,
    input: &mut R,
    output: &mut W,
    most: u64,
) -> Result<(), Exit>
    ensures known { IfErr result IsOfKnownWord }
    ensures memory { IfErr result (λ exit. IsMemoryExit exit → L.grows) }
    ensures lists { IfSome (R.remaining input.old) (λ s. ListsUntil (packets_in L.grows (of_header (L.line (L.setting lines)))) most s
        (R.remaining input.new) (W.contents output.old) (W.contents output.new) (exit_of result)) }
{
    let header = PcapHeader::from_reader(input)?;
    let mut packets = Packets {
        lines,
        order: header.endianness(),
        ts_resolution: header.ts_resolution(),
    };
    list_items(alloc, &mut packets, input, output, most)
}
