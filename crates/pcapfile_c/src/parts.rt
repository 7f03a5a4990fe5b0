//! Writes blocks from parts, some of which are options, and lists of options.

ghost use Rattle.std.specs.Prelude.{◌≡◌, ◌+◌, ◌<◌, ◌≤◌, ◌^◌, ◌++◌, [], length, All, IsTrue, false};
ghost use Rattle.pcap_core.specs.Codec.{Encoder, number_bytes};
ghost use Rattle.pcap_core.specs.Padded.{up_to_4};
ghost use Rattle.pcap_written.specs.Text.{end_mark, padded_bytes};
ghost use Rattle.pcapfile_values.specs.BlockTexts.{PutsAt};
ghost use Rattle.pcapfile_c.specs.PutParts.{IsListed, IsUnlisted, Measures, PutsList, PutsParts};
ghost use Rattle.pcapfile_c.specs.PutParts.{each_bytes, list_bytes, option_bytes, parts_body, parts_text, tail_bytes};
ghost use Rattle.pcapfile_c.specs.Readers.{writer};

use crate::options::PcapfileOption;
use byteorder::{BigEndian, ByteOrder, LittleEndian};
use pcap_core::Endianness;
use pcapfile_values::errors::PcapfileError;
use pcapfile_values::reasons::{Reason, need, refuse};
use pcapfile_values::texts::{put_bytes, put_pair, put_u32};

/// The parts of a block: its type, the bytes at the beginning of its body, data that is padded after them, and options.
#[derive(Clone, Copy)]
pub struct Parts<'a> {
    pub type_: u32,
    pub head: &'a [u8],
    pub data_: &'a [u8],
    pub options: &'a [PcapfileOption<'a>],
    /// The head ends with the options of a clock.
    pub clocked: bool,
}

/// The number of bytes of options with their mark, or why they aren't written.
#[derive(Clone, Copy)]
pub enum Measured {
    Bytes(usize),
    Unlisted,
    TooLong,
}

/// Writes a list of options to the front of the room, and its end mark if it has an option.
pub fn put_options(
    order: Endianness,
    options: &[PcapfileOption<'_>],
    room: &mut [u8],
    written: &mut usize,
    error: &mut PcapfileError,
) -> i32
    ensures { PutsList (number_bytes order) options.now (writer room.old written.old error.old) (writer room.new written.new error.new) result }
{
    match order {
        Endianness::Big => put_options_in::<BigEndian>(options, room, written, error),
        Endianness::Little => put_options_in::<LittleEndian>(options, room, written, error),
    }
}

fn put_options_in<B: ByteOrder>(
    options: &[PcapfileOption<'_>],
    room: &mut [u8],
    written: &mut usize,
    error: &mut PcapfileError,
) -> i32
    ensures { PutsList B.bytes_of options.now (writer room.old written.old error.old) (writer room.new written.new error.new) result }
{
    let len = match measure::<B>(options, false) {
        Measured::Bytes(len) => len,
        Measured::Unlisted => return 10,
        Measured::TooLong => return refuse(Reason::BlockTooLong, error),
    };
    if room.len() < len {
        return need(len - room.len(), error);
    }
    put_list::<B>(room, 0, options, false);
    *written = len;
    0
}

/// Writes a block to the front of the room.
pub fn put_parts(
    order: Endianness,
    parts: Parts<'_>,
    room: &mut [u8],
    written: &mut usize,
    error: &mut PcapfileError,
) -> i32
    requires { length parts.head.now ≤ 64 }
    ensures { PutsParts (number_bytes order) parts.entry (writer room.old written.old error.old) (writer room.new written.new error.new) result }
{
    match order {
        Endianness::Big => put_parts_in::<BigEndian>(parts, room, written, error),
        Endianness::Little => put_parts_in::<LittleEndian>(parts, room, written, error),
    }
}

fn put_parts_in<B: ByteOrder>(
    parts: Parts<'_>,
    room: &mut [u8],
    written: &mut usize,
    error: &mut PcapfileError,
) -> i32
    requires { length parts.head.now ≤ 64 }
    ensures { PutsParts B.bytes_of parts.entry (writer room.old written.old error.old) (writer room.new written.new error.new) result }
{
    let listed = match measure::<B>(parts.options, parts.clocked) {
        Measured::Bytes(listed) => listed,
        Measured::Unlisted => return 10,
        Measured::TooLong => return refuse(Reason::BlockTooLong, error),
    };
    if parts.data_.len() > 4_294_967_283 {
        return refuse(Reason::BlockTooLong, error);
    }
    let len = parts.head.len() + parts.data_.len().div_ceil(4) * 4 + listed + 12;
    if len > 4_294_967_295 {
        return refuse(Reason::BlockTooLong, error);
    }
    if room.len() < len {
        return need(len - room.len(), error);
    }
    put_block::<B>(parts, len as u32, room);
    *written = len;
    0
}

// Writes a block of this length at the beginning of the room.
fn put_block<B: ByteOrder>(parts: Parts<'_>, len: u32, room: &mut [u8])
    requires listed { All (IsListed parts.clocked) parts.options.now }
    requires len { len ≡ length parts.head.now + (up_to_4 (length parts.data_.now) + length (tail_bytes B.bytes_of parts.clocked parts.options.now)) + 12 }
    requires room { len ≤ length room.old }
    ensures { PutsAt 0 (parts_text B.bytes_of parts.entry) room.old room.new }
{
    let len_at = put_u32::<B>(room, 0, parts.type_);
    let head_at = put_u32::<B>(room, len_at, len);
    let data_at = put_bytes(room, head_at, parts.head);
    let options_at = put_padded(room, data_at, parts.data_);
    let len_again_at = put_list::<B>(room, options_at, parts.options, parts.clocked);
    put_u32::<B>(room, len_again_at, len);
}

// Returns how many bytes the options and their mark have, or why they aren't written.
fn measure<B: ByteOrder>(options: &[PcapfileOption<'_>], clocked: bool) -> Measured
    ensures { Measures B.bytes_of clocked options.now result }
{
    let mut len: usize = 4;
    for option in options {
        if is_unlisted(option, clocked) {
            return Measured::Unlisted;
        }
        len += option.value.len().div_ceil(4) * 4 + 4;
        if len > 4_294_967_283 {
            return Measured::TooLong;
        }
    }
    if !has_mark(options, clocked) {
        return Measured::Bytes(0);
    }
    Measured::Bytes(len)
}

// Returns whether the call can't write this option.
fn is_unlisted(option: &PcapfileOption<'_>, clocked: bool) -> bool
    ensures unlisted { IsTrue result → IsUnlisted clocked option.now }
    ensures listed { result ≡ false → IsListed clocked option.now }
{
    option.code == 0
        || (clocked && (option.code == 9 || option.code == 14))
        || option.value.len() > 65535
}

// Returns whether a mark ends these options.
fn has_mark(options: &[PcapfileOption<'_>], clocked: bool) -> bool
    ensures marked { (write : Encoder) → IsTrue result → tail_bytes write clocked options.now ≡ each_bytes write options.now ++ end_mark write }
    ensures bare { (write : Encoder) → result ≡ false → tail_bytes write clocked options.now ≡ [] }
    ensures none { result ≡ false → options.now ≡ [] }
{
    clocked || !options.is_empty()
}

// Writes options and their mark at this place of the room, and returns the place after them.
fn put_list<B: ByteOrder>(
    room: &mut [u8],
    at: usize,
    options: &[PcapfileOption<'_>],
    clocked: bool,
) -> usize
    requires listed { All (IsListed clocked) options.now }
    requires room { at + length (tail_bytes B.bytes_of clocked options.now) ≤ length room.old }
    ensures behind { result ≡ at + length (tail_bytes B.bytes_of clocked options.now) }
    ensures put { PutsAt at (tail_bytes B.bytes_of clocked options.now) room.old room.new }
{
    if !has_mark(options, clocked) {
        return at;
    }
    let mark_at = put_each::<B>(room, at, options, clocked);
    put_pair::<B>(room, mark_at, 0, 0)
}

// Writes options one after the other at this place of the room, and returns the place after them.
fn put_each<B: ByteOrder>(
    room: &mut [u8],
    at: usize,
    options: &[PcapfileOption<'_>],
    clocked: bool,
) -> usize
    requires listed { All (IsListed clocked) options.now }
    requires room { at + length (each_bytes B.bytes_of options.now) ≤ length room.old }
    ensures behind { result ≡ at + length (each_bytes B.bytes_of options.now) }
    ensures put { PutsAt at (each_bytes B.bytes_of options.now) room.old room.new }
{
    let mut behind = at;
    for option in options {
        behind = put_option::<B>(room, behind, option);
    }
    behind
}

// Writes an option at this place of the room, and returns the place after it.
fn put_option<B: ByteOrder>(room: &mut [u8], at: usize, option: &PcapfileOption<'_>) -> usize
    requires short { length option.now.value.now < 2 ^ 16 }
    requires room { at + (up_to_4 (length option.now.value.now) + 4) ≤ length room.old }
    ensures behind { result ≡ at + (up_to_4 (length option.now.value.now) + 4) }
    ensures put { PutsAt at (option_bytes B.bytes_of option.now) room.old room.new }
{
    let value_at = put_pair::<B>(room, at, option.code, option.value.len() as u16);
    put_padded(room, value_at, option.value)
}

// Writes bytes and their padding at this place of the room, and returns the place after them.
fn put_padded(room: &mut [u8], at: usize, bytes: &[u8]) -> usize
    requires { at + up_to_4 (length bytes.now) ≤ length room.old }
    ensures behind { result ≡ at + up_to_4 (length bytes.now) }
    ensures put { PutsAt at (padded_bytes bytes.now) room.old room.new }
{
    let missing = (4 - bytes.len() % 4) % 4;
    let zeros_at = put_bytes(room, at, bytes);
    let zeros = [0; 3];
    put_bytes(room, zeros_at, &zeros[..missing])
}
