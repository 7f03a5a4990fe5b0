//! Writes blocks of PcapNg with options of the caller, and blocks of bytes, into a buffer of the caller (the room).

ghost use Rattle.std.specs.Prelude.{◌≡◌, ◌<◌, ◌^◌, Some, None};
ghost use Rattle.pcap_core.specs.declared.common.Endianness.{Endianness};
ghost use Rattle.pcap_core.specs.declared.rules.Rule.TheVariants.{SectionMagic};
ghost use Rattle.pcap_core.specs.Codec.{number_bytes};
ghost use Rattle.pcap_blocks.specs.SectionHeader.{magic_order};
ghost use Rattle.pcapfile_values.specs.declared.reasons.Reason.TheVariants.{Breaks};
ghost use Rattle.pcapfile_values.specs.Reasons.{IsRefused};
ghost use Rattle.pcapfile_c.specs.PutParts.{PutsList};
ghost use Rattle.pcapfile_c.specs.Putting.{BytesFlaw, PacketWithFlaw, InterfaceWithFlaw, PutsBlock, SectionWithFlaw};
ghost use Rattle.pcapfile_c.specs.Putting.{a_block, a_section_with, an_interface_with, a_packet_with};
ghost use Rattle.pcapfile_c.specs.Readers.{block_writer, writer};

use crate::options::PcapfileOption;
use crate::parts::{Parts, put_options, put_parts};
use crate::putting::without_interfaces;
use pcap_blocks::BlockType;
use pcap_core::rules::Rule;
use pcap_core::{DataLink, Endianness};
use pcapfile_values::blocks::{PcapfileBlock, PcapfileSection};
use pcapfile_values::bodies::{PcapfileInterface, PcapfileNgPacket};
use pcapfile_values::errors::PcapfileError;
use pcapfile_values::reasons::{Reason, refuse};
use pcapfile_values::texts::{interface_len, packet_head, put_interface, put_section};

/// Writes a section header with options to the front of `room`, and does otherwise as `pcapfile_put_section` does.
#[unsafe(no_mangle)]
pub extern "C" fn pcapfile_put_section_with(
    section: &mut PcapfileSection,
    options: &[PcapfileOption<'_>],
    room: &mut [u8],
    written: &mut usize,
    error: &mut PcapfileError,
) -> i32
    ensures { PutsBlock (SectionWithFlaw section.old options.now) (a_section_with section.old options.now)
        (block_writer section.old room.old written.old error.old) (block_writer section.new room.new written.new error.new) result }
{
    let opened = without_interfaces(
        section.magic_number,
        section.version_major,
        section.version_minor,
    );
    let Some(order) = opened.endianness() else {
        return refuse(Reason::Breaks(Rule::SectionMagic), error);
    };
    let mut plain = [0; 28];
    put_section(order, &opened, &mut plain);
    let parts = Parts {
        type_: 0x0A0D_0D0A,
        head: &plain[8..24],
        data_: &[],
        options,
        clocked: false,
    };
    let status = put_parts(order, parts, room, written, error);
    if status != 0 {
        return status;
    }
    *section = opened;
    0
}

/// Writes the description of an interface with more options to the front of `room`. They follow those that describe its clock. The call
/// does otherwise as `pcapfile_put_interface` does.
#[unsafe(no_mangle)]
pub extern "C" fn pcapfile_put_interface_with(
    section: &mut PcapfileSection,
    interface: &PcapfileInterface,
    options: &[PcapfileOption<'_>],
    room: &mut [u8],
    written: &mut usize,
    error: &mut PcapfileError,
) -> i32
    ensures { PutsBlock (InterfaceWithFlaw section.old interface.now options.now) (an_interface_with interface.now options.now)
        (block_writer section.old room.old written.old error.old) (block_writer section.new room.new written.new error.new) result }
{
    let Some(order) = section.endianness() else {
        return refuse(Reason::Breaks(Rule::SectionMagic), error);
    };
    if section.interfaces == u32::MAX {
        return refuse(Reason::InterfacesFull, error);
    }
    if interface.link > 65535 {
        return refuse(Reason::LinkTooLarge, error);
    }
    if interface.ts_exponent > 127 {
        return refuse(Reason::Breaks(Rule::InterfaceResolutionLength), error);
    }
    let mut plain = [0; 44];
    put_interface(order, DataLink::from(interface.link), interface, &mut plain);
    let parts = Parts {
        type_: 1,
        head: &plain[8..interface_len(interface) - 8],
        data_: &[],
        options,
        clocked: true,
    };
    let status = put_parts(order, parts, room, written, error);
    if status != 0 {
        return status;
    }
    section.interfaces += 1;
    0
}

/// Writes an enhanced packet with options to the front of `room`, and does otherwise as `pcapfile_put_ng_packet` does.
#[unsafe(no_mangle)]
pub extern "C" fn pcapfile_put_ng_packet_with(
    section: &PcapfileSection,
    packet: &PcapfileNgPacket<'_>,
    options: &[PcapfileOption<'_>],
    room: &mut [u8],
    written: &mut usize,
    error: &mut PcapfileError,
) -> i32
    ensures { PutsBlock (PacketWithFlaw section.now packet.now options.now) (a_packet_with packet.now options.now)
        (block_writer section.now room.old written.old error.old) (block_writer section.now room.new written.new error.new) result }
{
    let Some(order) = section.endianness() else {
        return refuse(Reason::Breaks(Rule::SectionMagic), error);
    };
    if packet.interface_id >= section.interfaces {
        return refuse(Reason::InterfaceMissing, error);
    }
    if packet.bytes.len() > 4_294_967_260 {
        return refuse(Reason::BlockTooLong, error);
    }
    let head = packet_head(order, packet);
    let parts = Parts {
        type_: 6,
        head: &head,
        data_: packet.bytes,
        options,
        clocked: false,
    };
    put_parts(order, parts, room, written, error)
}

/// Writes a block of any type to the front of `room`, in the byte order of the section: its body, and zeros up to a multiple of 4. Status
/// 10: blocks of this type have a call of their own.
#[unsafe(no_mangle)]
pub extern "C" fn pcapfile_put_block(
    section: &PcapfileSection,
    block: &PcapfileBlock<'_>,
    room: &mut [u8],
    written: &mut usize,
    error: &mut PcapfileError,
) -> i32
    ensures { PutsBlock (BytesFlaw section.now block.now) (a_block block.now) (block_writer section.now room.old written.old error.old)
        (block_writer section.now room.new written.new error.new) result }
{
    let Some(order) = order_in(*section) else {
        return refuse(Reason::Breaks(Rule::SectionMagic), error);
    };
    match BlockType::from(block.type_) {
        BlockType::SectionHeader | BlockType::InterfaceDescription => return 10,
        _ => {}
    }
    let parts = Parts {
        type_: block.type_,
        head: &[],
        data_: block.body,
        options: &[],
        clocked: false,
    };
    put_parts(order, parts, room, written, error)
}

/// Writes a list of options to the front of `room`, in the byte order of the section, and the mark that ends it. It writes nothing if there
/// are no options. A program that makes the body of a block puts them behind its fields.
#[unsafe(no_mangle)]
pub extern "C" fn pcapfile_put_options(
    section: &PcapfileSection,
    options: &[PcapfileOption<'_>],
    room: &mut [u8],
    written: &mut usize,
    error: &mut PcapfileError,
) -> i32
    ensures put { (e : Endianness) → magic_order section.now.magic_number ≡ Some e →
        PutsList (number_bytes e) options.now (writer room.old written.old error.old) (writer room.new written.new error.new) result }
    ensures refused { magic_order section.now.magic_number ≡ None →
        (room.new ≡ room.old) × (written.new ≡ written.old) × IsRefused (Breaks SectionMagic) error.new result }
{
    let Some(order) = section.endianness() else {
        return refuse(Reason::Breaks(Rule::SectionMagic), error);
    };
    put_options(order, options, room, written, error)
}

// Returns the byte order of a section, whose number of interfaces has four bytes.
fn order_in(section: PcapfileSection) -> Option<Endianness>
    ensures order { result ≡ magic_order section.magic_number }
    ensures counted { section.interfaces < 2 ^ 32 }
{
    section.endianness()
}
