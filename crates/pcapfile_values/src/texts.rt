//! Writes the bytes of blocks into a slice (the room) that is long enough for them.

ghost use Rattle.std.specs.Prelude.{◌≡◌, ◌+◌, ◌/◌, ◌%◌, ◌^◌, ◌<◌, ◌≤◌, ◌++◌, length};
ghost use Rattle.std.specs.Int.{w64, cast_unsigned};
ghost use Rattle.pcap_core.specs.Codec.{number_bytes};
ghost use Rattle.pcap_core.specs.Link.{link_number};
ghost use Rattle.pcap_core.specs.Padded.{up_to_4};
ghost use Rattle.pcap_options.specs.InterfaceOption.{interface_description};
ghost use Rattle.pcap_written.specs.Bodies.{text_of};
ghost use Rattle.pcap_written.specs.Plain.{plain_head};
ghost use Rattle.pcap_written.specs.Text.{list_text};
ghost use Rattle.pcapfile_values.specs.BlockTexts.{PutsAt, section_block, interface_block, packet_block, packet_front};
ghost use Rattle.pcapfile_values.specs.BlockTexts.{clock_options, clock_len, resolution_byte};

use crate::blocks::PcapfileSection;
use crate::bodies::{PcapfileInterface, PcapfileNgPacket};
use byteorder::{BigEndian, ByteOrder, LittleEndian};
use pcap_core::{DataLink, Endianness};

/// Writes bytes at this place of the room, and returns the place after them.
pub fn put_bytes(room: &mut [u8], at: usize, bytes: &[u8]) -> usize
    requires { at + length bytes.now ≤ length room.old }
    ensures behind { result ≡ at + length bytes.now }
    ensures put { PutsAt at bytes.now room.old room.new }
{
    let behind = at + bytes.len();
    room[at..behind].copy_from_slice(bytes);
    behind
}

fn put_u16<B: ByteOrder>(room: &mut [u8], at: usize, n: u16) -> usize
    requires { at + 2 ≤ length room.old }
    ensures behind { result ≡ at + 2 }
    ensures put { PutsAt at (B.bytes_of 2 n) room.old room.new }
{
    let mut bytes = [0; 2];
    B::write_u16(&mut bytes, n);
    put_bytes(room, at, &bytes)
}

/// Writes a number of four bytes at this place of the room, and returns the place after it.
pub fn put_u32<B: ByteOrder>(room: &mut [u8], at: usize, n: u32) -> usize
    requires { at + 4 ≤ length room.old }
    ensures behind { result ≡ at + 4 }
    ensures put { PutsAt at (B.bytes_of 4 n) room.old room.new }
{
    let mut bytes = [0; 4];
    B::write_u32(&mut bytes, n);
    put_bytes(room, at, &bytes)
}

fn put_u64<B: ByteOrder>(room: &mut [u8], at: usize, n: u64) -> usize
    requires { at + 8 ≤ length room.old }
    ensures behind { result ≡ at + 8 }
    ensures put { PutsAt at (B.bytes_of 8 n) room.old room.new }
{
    let mut bytes = [0; 8];
    B::write_u64(&mut bytes, n);
    put_bytes(room, at, &bytes)
}

/// Writes two numbers of two bytes at this place of the room, and returns the place after them.
pub fn put_pair<B: ByteOrder>(room: &mut [u8], at: usize, first: u16, second: u16) -> usize
    requires { at + 4 ≤ length room.old }
    ensures behind { result ≡ at + 4 }
    ensures put { PutsAt at (B.bytes_of 2 first ++ B.bytes_of 2 second) room.old room.new }
{
    let second_at = put_u16::<B>(room, at, first);
    put_u16::<B>(room, second_at, second)
}

/// Writes a section header of 28 bytes at the beginning of the room.
pub fn put_section(order: Endianness, section: &PcapfileSection, room: &mut [u8])
    requires { 28 ≤ length room.old }
    ensures { PutsAt 0 (text_of (number_bytes order) (section_block section.now)) room.old room.new }
{
    match order {
        Endianness::Big => put_section_in::<BigEndian>(section, room),
        Endianness::Little => put_section_in::<LittleEndian>(section, room),
    }
}

fn put_section_in<B: ByteOrder>(section: &PcapfileSection, room: &mut [u8])
    requires { 28 ≤ length room.old }
    ensures { PutsAt 0 (text_of B.bytes_of (section_block section.now)) room.old room.new }
{
    let len_at = put_u32::<B>(room, 0, 0x0A0D0D0A);
    let magic_at = put_u32::<B>(room, len_at, 28);
    let version_at = put_u32::<BigEndian>(room, magic_at, section.magic_number);
    let length_at = put_pair::<B>(
        room,
        version_at,
        section.version_major,
        section.version_minor,
    );
    let len_again_at = put_u64::<B>(room, length_at, u64::MAX);
    put_u32::<B>(room, len_again_at, 28);
}

/// Returns how many bytes the description of an interface has.
pub fn interface_len(interface: &PcapfileInterface) -> usize
    ensures { result ≡ clock_len (cast_unsigned w64 interface.now.ts_offset) + 20 }
{
    if interface.ts_offset == 0 { 32 } else { 44 }
}

/// Writes the description of an interface at the beginning of the room.
pub fn put_interface(
    order: Endianness,
    link: DataLink,
    interface: &PcapfileInterface,
    room: &mut [u8],
)
    requires link { link_number link < 2 ^ 16 }
    requires exponent { interface.now.ts_exponent < 128 }
    requires room { clock_len (cast_unsigned w64 interface.now.ts_offset) + 20 ≤ length room.old }
    ensures { PutsAt 0 (text_of (number_bytes order) (interface_block link interface.now)) room.old room.new }
{
    match order {
        Endianness::Big => put_interface_in::<BigEndian>(link, interface, room),
        Endianness::Little => put_interface_in::<LittleEndian>(link, interface, room),
    }
}

fn put_interface_in<B: ByteOrder>(link: DataLink, interface: &PcapfileInterface, room: &mut [u8])
    requires link { link_number link < 2 ^ 16 }
    requires exponent { interface.now.ts_exponent < 128 }
    requires room { clock_len (cast_unsigned w64 interface.now.ts_offset) + 20 ≤ length room.old }
    ensures { PutsAt 0 (text_of B.bytes_of (interface_block link interface.now)) room.old room.new }
{
    let len = interface_len(interface) as u32;
    let len_at = put_u32::<B>(room, 0, 1);
    let link_at = put_u32::<B>(room, len_at, len);
    let snaplen_at = put_pair::<B>(room, link_at, u32::from(link) as u16, 0);
    let options_at = put_u32::<B>(room, snaplen_at, interface.snaplen);
    let len_again_at = put_clock::<B>(
        room,
        options_at,
        resolution(interface),
        offset_bits(interface),
    );
    put_u32::<B>(room, len_again_at, len);
}

// Returns the byte that encodes the interface's unit of time (if_tsresol).
fn resolution(interface: &PcapfileInterface) -> u8
    requires { interface.now.ts_exponent < 128 }
    ensures { result ≡ resolution_byte interface.now.ts_base interface.now.ts_exponent }
{
    match interface.ts_base {
        2 => interface.ts_exponent + 128,
        _ => interface.ts_exponent,
    }
}

// Returns the bits of the interface's time offset.
fn offset_bits(interface: &PcapfileInterface) -> u64
    ensures { result ≡ cast_unsigned w64 interface.now.ts_offset }
{
    interface.ts_offset.cast_unsigned()
}

// Writes how an interface counts time: the byte of its if_tsresol, and the bits of its if_tsoffset unless they are 0.
fn put_clock<B: ByteOrder>(room: &mut [u8], at: usize, resolution: u8, offset: u64) -> usize
    requires { at + clock_len offset ≤ length room.old }
    ensures behind { result ≡ at + clock_len offset }
    ensures put { PutsAt at (list_text B.bytes_of interface_description (clock_options resolution offset)) room.old room.new }
{
    let resolution_at = put_pair::<B>(room, at, 9, 1);
    let offset_at = put_bytes(room, resolution_at, &[resolution, 0, 0, 0]);
    if offset == 0 {
        return put_pair::<B>(room, offset_at, 0, 0);
    }
    let number_at = put_pair::<B>(room, offset_at, 14, 8);
    let mark_at = put_u64::<B>(room, number_at, offset);
    put_pair::<B>(room, mark_at, 0, 0)
}

/// Writes an enhanced packet at the beginning of the room.
pub fn put_packet(order: Endianness, packet: &PcapfileNgPacket<'_>, room: &mut [u8])
    requires short { length packet.now.bytes.now ≤ 4294967260 }
    requires room { up_to_4 (length packet.now.bytes.now) + 32 ≤ length room.old }
    ensures { PutsAt 0 (text_of (number_bytes order) (packet_block packet.now)) room.old room.new }
{
    match order {
        Endianness::Big => put_packet_in::<BigEndian>(packet, room),
        Endianness::Little => put_packet_in::<LittleEndian>(packet, room),
    }
}

fn put_packet_in<B: ByteOrder>(packet: &PcapfileNgPacket<'_>, room: &mut [u8])
    requires short { length packet.now.bytes.now ≤ 4294967260 }
    requires room { up_to_4 (length packet.now.bytes.now) + 32 ≤ length room.old }
    ensures { PutsAt 0 (text_of B.bytes_of (packet_block packet.now)) room.old room.new }
{
    let missing = (4 - packet.bytes.len() % 4) % 4;
    let len = (packet.bytes.len() + missing + 32) as u32;
    let bytes_at = put_packet_head::<B>(room, len, packet);
    let padding_at = put_bytes(room, bytes_at, packet.bytes);
    let zeros = [0; 3];
    let len_again_at = put_bytes(room, padding_at, &zeros[..missing]);
    put_u32::<B>(room, len_again_at, len);
}

/// Returns the 20 bytes of an enhanced packet's body before the packet's bytes.
pub fn packet_head(order: Endianness, packet: &PcapfileNgPacket<'_>) -> [u8; 20]
    requires { length packet.now.bytes.now < 2 ^ 32 }
    ensures { result ≡ packet_front (number_bytes order) packet.now }
{
    match order {
        Endianness::Big => packet_head_in::<BigEndian>(packet),
        Endianness::Little => packet_head_in::<LittleEndian>(packet),
    }
}

fn packet_head_in<B: ByteOrder>(packet: &PcapfileNgPacket<'_>) -> [u8; 20]
    requires { length packet.now.bytes.now < 2 ^ 32 }
    ensures { result ≡ packet_front B.bytes_of packet.now }
{
    let mut head = [0; 20];
    let high_at = put_u32::<B>(&mut head, 0, packet.interface_id);
    let low_at = put_u32::<B>(
        &mut head,
        high_at,
        (packet.timestamp / 4_294_967_296) as u32,
    );
    let captured_at = put_u32::<B>(&mut head, low_at, (packet.timestamp % 4_294_967_296) as u32);
    let original_at = put_u32::<B>(&mut head, captured_at, packet.bytes.len() as u32);
    put_u32::<B>(&mut head, original_at, packet.orig_len);
    head
}

// Writes the 28 bytes before the bytes of a packet, in a block of this length.
fn put_packet_head<B: ByteOrder>(room: &mut [u8], len: u32, packet: &PcapfileNgPacket<'_>) -> usize
    requires short { length packet.now.bytes.now < 2 ^ 32 }
    requires room { 28 ≤ length room.old }
    ensures behind { result ≡ 28 }
    ensures put { PutsAt 0 (plain_head B.bytes_of len packet.now.interface_id (packet.now.timestamp / 2 ^ 32) (packet.now.timestamp % 2 ^ 32)
        (length packet.now.bytes.now) packet.now.orig_len) room.old room.new }
{
    let len_at = put_u32::<B>(room, 0, 6);
    let interface_at = put_u32::<B>(room, len_at, len);
    let high_at = put_u32::<B>(room, interface_at, packet.interface_id);
    let low_at = put_u32::<B>(room, high_at, (packet.timestamp / 4_294_967_296) as u32);
    let captured_at = put_u32::<B>(room, low_at, (packet.timestamp % 4_294_967_296) as u32);
    let original_at = put_u32::<B>(room, captured_at, packet.bytes.len() as u32);
    put_u32::<B>(room, original_at, packet.orig_len)
}
