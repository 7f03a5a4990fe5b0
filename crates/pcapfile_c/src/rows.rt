//! Reads packets of captures in memory as rows of numbers, many in one call.

ghost use Rattle.std.specs.Prelude.{◌≡◌, ◌<◌, ◌+◌, ◌^◌, false, IsTrue, Some, None};
ghost use Rattle.pcap_core.specs.declared.common.Endianness.{Endianness};
ghost use Rattle.pcap_blocks.specs.SectionHeader.{magic_order};
ghost use Rattle.pcap_classic.specs.Magic.{is_magic};
ghost use Rattle.pcapfile_values.specs.Shown.{captured};
ghost use Rattle.pcapfile_c.specs.Bodies.{RefusesSection};
ghost use Rattle.pcapfile_c.specs.Calls.{RefusesMagic};
ghost use Rattle.pcapfile_c.specs.Rows.{ShowsRow, ShowsNgRow, TakesRows, TakesNgRows, data_place, stored_shown};
ghost use Rattle.pcapfile_c.specs.Readers.{reader};

use crate::batches::{Front, any_front, plain_packet};
use crate::pcap::next_packet;
use pcap_core::PcapError;
use pcap_core::rules::Rule;
use pcapfile_values::blocks::PcapfileSection;
use pcapfile_values::bodies::PcapfileNgPacket;
use pcapfile_values::errors::{PcapfileError, tell};
use pcapfile_values::shown::{PcapfileBytes, PcapfileHeader, PcapfilePacket};
use std::alloc::Global;

/// The numbers of a packet of a classic capture. In C: `pcapfile_row`.
#[repr(C)]
#[derive(Clone, Copy)]
pub struct PcapfileRow {
    /// The time in nanoseconds since 1970.
    pub time_ns: i64,
    /// How many bytes are stored, at most 2^32 - 1.
    pub len: u32,
    pub orig_len: u32,
    /// 0, since classic captures have no numbered interfaces.
    pub interface_id: u32,
    /// The number of the link type of the packet's first layer.
    pub link: u32,
    /// Where the stored bytes begin.
    pub offset: u64,
}

/// The numbers of a packet of a PcapNg capture. In C: `pcapfile_ng_row`.
#[repr(C)]
#[derive(Clone, Copy)]
pub struct PcapfileNgRow {
    /// The time in units of the interface. 0 for a simple packet, which has no time.
    pub timestamp: u64,
    /// How many bytes are stored, at most 2^32 - 1. For a simple packet, padding counts too.
    pub len: u32,
    pub orig_len: u32,
    pub interface_id: u32,
    /// The number of the block's type.
    pub type_: u32,
    /// Where the stored bytes begin.
    pub offset: u64,
}

/// Reads packets at the front of `left`, after a capture's header, as rows into the first places, and sets `taken` to their number. Stops
/// when every place is filled, nothing is left, or the next packet is refused. `offset` counts from where `left` began.
#[unsafe(no_mangle)]
pub extern "C" fn pcapfile_take_rows(
    header: &PcapfileHeader,
    left: &mut PcapfileBytes<'_>,
    rows: &mut [PcapfileRow],
    taken: &mut usize,
    error: &mut PcapfileError,
) -> i32
    ensures taken { IsTrue (is_magic header.now.magic_number) →
        TakesRows header.now (reader left.old rows.old error.old) (reader left.new rows.new error.new) taken.new result }
    ensures refused { is_magic header.now.magic_number ≡ false →
        (taken.new ≡ 0) × RefusesMagic left.old left.new rows.old rows.new error.new result }
{
    *taken = 0;
    let Some((endianness, resolution)) = header.kind() else {
        return tell(&PcapError::from(Rule::CaptureMagic), error);
    };
    let all = left.bytes;
    let mut packet = PcapfilePacket {
        ts_sec: 0,
        ts_nsec: 0,
        orig_len: 0,
        bytes: all,
    };
    while *taken < rows.len() && !left.bytes.is_empty() {
        let place = all.len() - left.bytes.len() + 16;
        let status = next_packet(header, endianness, resolution, left, &mut packet, error);
        if status != 0 {
            return status;
        }
        rows[*taken] = PcapfileRow::new(&packet, header.link, place);
        *taken += 1;
    }
    0
}

/// Reads packets at the front of `left` as rows into the first places, skips other blocks between them, and sets `taken` to the number of
/// rows. Stops when every place is filled, nothing is left, a section header or an interface follows, or the next block is refused.
/// `offset` counts from where `left` began.
#[unsafe(no_mangle)]
pub extern "C" fn pcapfile_take_ng_rows(
    alloc: Global,
    section: &PcapfileSection,
    left: &mut PcapfileBytes<'_>,
    rows: &mut [PcapfileNgRow],
    taken: &mut usize,
    error: &mut PcapfileError,
) -> i32
    ensures taken { (e : Endianness) → magic_order section.now.magic_number ≡ Some e →
        TakesNgRows e (reader left.old rows.old error.old) (reader left.new rows.new error.new) taken.new result }
    ensures refused { magic_order section.now.magic_number ≡ None →
        (taken.new ≡ 0) × (left.new ≡ left.old) × RefusesSection rows.old rows.new error.new result }
{
    *taken = 0;
    let Some(order) = section.endianness() else {
        return tell(&PcapError::from(Rule::SectionMagic), error);
    };
    let total = left.bytes.len();
    while *taken < rows.len() && !left.bytes.is_empty() {
        let place = total - left.bytes.len();
        match plain_packet(order, left.bytes) {
            Some((rest, packet)) => {
                rows[*taken] = PcapfileNgRow::new(&packet, place);
                *taken += 1;
                left.bytes = rest;
            }
            None => match any_front(alloc, order, left.bytes) {
                Ok((rest, Front::Packet(packet))) => {
                    rows[*taken] = PcapfileNgRow::new(&packet, place);
                    *taken += 1;
                    left.bytes = rest;
                }
                Ok((rest, Front::Other)) => left.bytes = rest,
                Ok((_rest, Front::Section(_) | Front::Interface(_))) => return 8,
                Err(e) => return tell(&e, error),
            },
        }
    }
    0
}

impl PcapfileRow {
    // Returns the row of a packet of this link type whose bytes begin at this place.
    #[inline(always)]
    fn new(packet: &PcapfilePacket<'_>, link: u32, place: usize) -> PcapfileRow
        ensures { ShowsRow link place (captured packet.now) result }
    {
        PcapfileRow {
            time_ns: i64::from(packet.ts_sec) * 1_000_000_000 + i64::from(packet.ts_nsec),
            len: stored(packet.bytes),
            orig_len: packet.orig_len,
            interface_id: 0,
            link,
            offset: place as u64,
        }
    }
}

impl PcapfileNgRow {
    // Returns the row of a packet whose block begins at this place.
    #[inline(always)]
    fn new(packet: &PcapfileNgPacket<'_>, place: usize) -> PcapfileNgRow
        requires { place + 28 < 2 ^ 64 }
        ensures { ShowsNgRow place packet.now result }
    {
        PcapfileNgRow {
            timestamp: packet.timestamp,
            len: stored(packet.bytes),
            orig_len: packet.orig_len,
            interface_id: packet.interface_id,
            type_: packet.type_,
            offset: (place + data_place(packet.type_)) as u64,
        }
    }
}

// The block type number of a simple packet.
const SIMPLE: u32 = 3;

// Returns how many bytes of a block of this type precede the data of its packet.
#[inline(always)]
fn data_place(type_: u32) -> usize
    ensures { result ≡ data_place type_ }
{
    if type_ == SIMPLE { 12 } else { 28 }
}

// Returns the number of bytes, at most 2^32 - 1.
#[inline(always)]
fn stored(bytes: &[u8]) -> u32
    ensures { result ≡ stored_shown bytes.now }
{
    bytes.len().min(u32::MAX as usize) as u32
}
