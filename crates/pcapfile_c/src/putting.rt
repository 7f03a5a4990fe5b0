//! Writes blocks of PcapNg into a buffer of the caller (the room).

ghost use Rattle.std.specs.Prelude.{◌≡◌, ◌<◌, ◌^◌};
ghost use Rattle.pcapfile_c.specs.Putting.{PacketFlaw, InterfaceFlaw, SectionFlaw, PutsBlock, a_section, an_interface, a_packet};
ghost use Rattle.pcapfile_c.specs.Readers.{block_writer};

use pcap_core::DataLink;
use pcap_core::rules::Rule;
use pcapfile_values::blocks::PcapfileSection;
use pcapfile_values::bodies::{PcapfileInterface, PcapfileNgPacket};
use pcapfile_values::errors::PcapfileError;
use pcapfile_values::reasons::{Reason, need, refuse};
use pcapfile_values::texts::{interface_len, put_interface, put_packet, put_section};

/// Writes a section header without options to the front of `room`: its magic number, which declares the byte order of the section, and
/// its version. After the call the section has no interface.
#[unsafe(no_mangle)]
pub extern "C" fn pcapfile_put_section(
    section: &mut PcapfileSection,
    room: &mut [u8],
    written: &mut usize,
    error: &mut PcapfileError,
) -> i32
    ensures { PutsBlock (SectionFlaw section.old) (a_section section.old) (block_writer section.old room.old written.old error.old)
        (block_writer section.new room.new written.new error.new) result }
{
    let opened = without_interfaces(
        section.magic_number,
        section.version_major,
        section.version_minor,
    );
    let Some(order) = opened.endianness() else {
        return refuse(Reason::Breaks(Rule::SectionMagic), error);
    };
    if room.len() < 28 {
        return need(28 - room.len(), error);
    }
    put_section(order, &opened, room);
    *section = opened;
    *written = 28;
    0
}

/// Writes the description of an interface to the front of `room`, in the byte order of the section. It has an if_tsresol with the unit of
/// time, and an if_tsoffset if the offset isn't 0. After the call the section has one more interface.
#[unsafe(no_mangle)]
pub extern "C" fn pcapfile_put_interface(
    section: &mut PcapfileSection,
    interface: &PcapfileInterface,
    room: &mut [u8],
    written: &mut usize,
    error: &mut PcapfileError,
) -> i32
    ensures { PutsBlock (InterfaceFlaw section.old interface.now) (an_interface interface.now)
        (block_writer section.old room.old written.old error.old) (block_writer section.new room.new written.new error.new) result }
{
    let Some(order) = section.endianness() else {
        return refuse(Reason::Breaks(Rule::SectionMagic), error);
    };
    if section.interfaces == u32::MAX {
        return refuse(Reason::InterfacesFull, error);
    }
    if interface.link > 65535 {
        return refuse(Reason::LinkTooLarge, error);
    }
    if interface.ts_exponent > 127 {
        return refuse(Reason::Breaks(Rule::InterfaceResolutionLength), error);
    }
    let link = DataLink::from(interface.link);
    let len = interface_len(interface);
    if room.len() < len {
        return need(len - room.len(), error);
    }
    put_interface(order, link, interface, room);
    section.interfaces += 1;
    *written = len;
    0
}

/// Writes an enhanced packet without options to the front of `room`, in the byte order of the section. Refuses a packet whose interface
/// the section doesn't have.
#[unsafe(no_mangle)]
pub extern "C" fn pcapfile_put_ng_packet(
    section: &PcapfileSection,
    packet: &PcapfileNgPacket<'_>,
    room: &mut [u8],
    written: &mut usize,
    error: &mut PcapfileError,
) -> i32
    ensures { PutsBlock (PacketFlaw section.now packet.now) (a_packet packet.now) (block_writer section.now room.old written.old error.old)
        (block_writer section.now room.new written.new error.new) result }
{
    let Some(order) = section.endianness() else {
        return refuse(Reason::Breaks(Rule::SectionMagic), error);
    };
    if packet.interface_id >= section.interfaces {
        return refuse(Reason::InterfaceMissing, error);
    }
    if packet.bytes.len() > 4_294_967_260 {
        return refuse(Reason::BlockTooLong, error);
    }
    let len = packet.bytes.len().div_ceil(4) * 4 + 32;
    if room.len() < len {
        return need(len - room.len(), error);
    }
    put_packet(order, packet, room);
    *written = len;
    0
}

/// Returns a section that has no interface yet.
pub(crate) fn without_interfaces(
    magic_number: u32,
    version_major: u16,
    version_minor: u16,
) -> PcapfileSection
    ensures shown { result ≡ record { magic_number = magic_number; version_major = version_major; version_minor = version_minor; interfaces = 0 } }
    ensures major { version_major < 2 ^ 16 }
    ensures minor { version_minor < 2 ^ 16 }
{
    PcapfileSection {
        magic_number,
        version_major,
        version_minor,
        interfaces: 0,
    }
}
