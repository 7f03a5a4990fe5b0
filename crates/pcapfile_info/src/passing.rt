//! Packets of classic captures, counted in the input's buffer if they are whole there, and copied otherwise.

ghost use Rattle.std.specs.Prelude.{⊤, ◌≡◌, ◌+◌, ◌^◌, ◌<◌, ◌≤◌, ℕ, List, Option, [], true, false, drop, length, IsTrue, IfOk, OnOk};
ghost use Rattle.std.specs.Io.KnownBytes.{prepend_known};
ghost use Rattle.std.specs.Result.{result_err};
ghost use Rattle.pcap_core.specs.Answer.{whole};
ghost use Rattle.pcap_items.specs.Held.{held_bytes};
ghost use Rattle.pcap_classic.specs.Magic.{is_magic};
ghost use Rattle.pcap_classic.specs.Packets.{format_under, packet_format, reader_format};
ghost use Rattle.pcap_classic.specs.StatedPackets.{IsHeld};
ghost use Rattle.pcap_classic.specs.PacketText.{Captured, packet_limit};
ghost use Rattle.pcapfile_info.specs.Describing.{SameDescribed};
ghost use Rattle.pcapfile_info.specs.Sights.{IsPacketSight, captured_seen};
ghost use Rattle.pcapfile_info.specs.Telling.{AddsPacketAlone, GoesOn, KeepsTotals, TellsItems, TurnGives};
ghost use Rattle.pcapfile_info.specs.Totals.{AllAre, TotalsAre};

use crate::progress::{MOST, Progress};
use crate::shown::{Passes, pass_shown};
use crate::tally::Tally;
use byteorder::{BigEndian, ByteOrder, LittleEndian};
use pcap_file::pcap::{HeldPacket, Packet, PacketsUnder, PcapHeader};
use pcap_file::{Endianness, PcapError, ResultParsing, TsResolution};
use pcap_items::stream::{Held, fill_item};
use std::alloc::Global;
use std::io::{BufRead, Read};

// Counts the packets that are whole at the front of these bytes, and returns how many bytes they take.
fn pass_whole<B: ByteOrder>(
    ts_resolution: TsResolution,
    shown: &[u8],
    progress: &mut Progress,
) -> usize
    requires { progress.old.items ≤ 18446744073709551614 }
    ensures within { result ≤ length shown.now }
    ensures few { (progress.old.items ≤ progress.new.items) × (progress.new.items ≤ 18446744073709551614) }
    ensures same { SameDescribed progress.old progress.new }
    ensures walks { (behind : Option (List ℕ)) → GoesOn (packet_format packet_limit B.number_of ts_resolution) IsPacketSight 1
        (KeepsTotals AllAre) tt tt (prepend_known shown.now behind) (prepend_known (drop result shown.now) behind) progress.old progress.new }
{
    let mut rest = shown;
    while progress.items < MOST {
        let Ok((after, packet)) = Packet::from_slice::<B>(rest, ts_resolution) else {
            break;
        };
        progress.add_packet_alone(packet.header, packet.data_.as_slice());
        rest = after;
    }
    shown.len() - rest.len()
}

impl Passes for PcapHeader {
    ghost State = { Unit {0} };

    ghost Value = { Captured };

    ghost format = { λ header. format_under packet_limit header };

    ghost is_valid = { λ header. IsTrue (is_magic header.magic_number) };

    ghost stands_for = { λ header q. ⊤ };

    ghost is_sight = { IsPacketSight };

    ghost first = { 1 };

    ghost kept = { KeepsTotals AllAre };

    fn pass(&self, shown: &[u8], progress: &mut Progress) -> usize {
        let ts_resolution = self.ts_resolution();
        match self.endianness() {
            Endianness::Big => pass_whole::<BigEndian>(ts_resolution, shown, progress),
            Endianness::Little => pass_whole::<LittleEndian>(ts_resolution, shown, progress),
        }
    }
}

// Counts one packet that is held.
fn add_held(held: HeldPacket<'_>, progress: &mut Progress)
    requires held { IsHeld held }
    requires few { progress.old.items + 1 < 2 ^ 64 }
    ensures adds { (packet : Captured) × (reader_format packet_limit held.entry.from.now).says tt held.entry.bytes.now (whole packet [])
        × AddsPacketAlone (captured_seen packet) (16 + packet.header.incl_len) progress.old progress.new }
    ensures same { SameDescribed progress.old progress.new }
{
    let packet = held.packet();
    progress.add_packet_alone(packet.header, packet.data_.as_slice());
}

// Holds and counts the next packet, and returns whether there was one.
fn pass_held<R: Read>(
    header: &PcapHeader,
    input: &mut R,
    read_failed: &mut bool,
    held: &mut Held,
    progress: &mut Progress,
) -> ResultParsing<bool>
    requires valid { IsTrue (is_magic header.now.magic_number) }
    requires unfailed { read_failed.old ≡ false }
    requires between { held_bytes held.old ≡ [] }
    requires fewer { progress.old.items < 18446744073709551614 }
    ensures between { OnOk result (held_bytes held.new ≡ []) }
    ensures counts { IfOk result (λ more. more ≡ true → progress.new.items ≡ progress.old.items + 1) }
    ensures same { SameDescribed progress.old progress.new }
    ensures turn { TurnGives (format_under packet_limit header.now) IsPacketSight 1 (KeepsTotals AllAre) (λ fault. KeepsTotals AllAre) tt tt
        (R.remaining input.old) (R.remaining input.new) read_failed.new 18446744073709551614 progress.old progress.new result }
{
    let Some(head) = fill_item(&PacketsUnder { header }, input, read_failed, held)? else {
        return Ok(false);
    };
    let packet = HeldPacket {
        from: header,
        head,
        bytes: held.as_slice(),
    };
    add_held(packet, progress);
    held.clear();
    Ok(true)
}

// Counts the packets after a header in the total of all packets only.
fn pass_packets<R: BufRead>(
    alloc: Global,
    header: &PcapHeader,
    input: &mut R,
    read_failed: &mut bool,
    progress: &mut Progress,
) -> ResultParsing<()>
    requires valid { IsTrue (is_magic header.now.magic_number) }
    requires unfailed { read_failed.old ≡ false }
    requires none_yet { progress.old.items ≡ 0 }
    requires room { progress.old.bytes < 2 ^ 64 }
    requires nothing { AllAre [] progress.old.totals }
    ensures same { SameDescribed progress.old progress.new }
    ensures tells { TellsItems (format_under packet_limit header.now) tt IsPacketSight 1 (KeepsTotals AllAre)
        (R.remaining input.old) (R.remaining input.new) read_failed.new 18446744073709551614 progress.old progress.new (result_err result) }
{
    let mut held = Held::new(alloc);
    while progress.items < MOST {
        if !pass_shown(header, input, read_failed, progress)? {
            return Ok(());
        }
        if progress.items == MOST {
            return Ok(());
        }
        if !pass_held(header, input, read_failed, &mut held, progress)? {
            return Ok(());
        }
    }
    Ok(())
}

/// Counts the packets after a header, and returns the error of the next packet, if any. The counts of their one interface are
/// put into `own`.
pub(crate) fn tell_packets<R: BufRead>(
    alloc: Global,
    own: Box<Tally>,
    header: &PcapHeader,
    input: &mut R,
    read_failed: &mut bool,
    progress: &mut Progress,
) -> Option<PcapError>
    requires valid { IsTrue (is_magic header.now.magic_number) }
    requires unfailed { read_failed.old ≡ false }
    requires none_yet { progress.old.items ≡ 0 }
    requires room { progress.old.bytes < 2 ^ 64 }
    requires nothing { TotalsAre 1 [] progress.old.totals }
    ensures same { SameDescribed progress.old progress.new }
    ensures tells { TellsItems (format_under packet_limit header.now) tt IsPacketSight 1
        (KeepsTotals (TotalsAre 1)) (R.remaining input.old) (R.remaining input.new) read_failed.new 18446744073709551614 progress.old progress.new result }
{
    let fault = pass_packets(alloc, header, input, read_failed, progress).err();
    progress.totals.give_to_the_interface(own);
    fault
}
