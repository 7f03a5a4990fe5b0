//! Recognizing the variant of a capture by its first bytes.

ghost use Rattle.std.specs.Prelude.{◌≤◌, ◌↔◌, IsTrue};
ghost use Rattle.pcap_variants.specs.Shown.{IsPlain, LongRow, Recognizes, Shows, ShowsModified, ShowsPlain};

use crate::heads::{HEAD, behind, included, is_row};
use crate::variant::{Further, Variant};
use byteorder::{BigEndian, ByteOrder};
use pcap_core::Endianness;

/// The length of a file header, in bytes.
const HEADER: usize = 24;

// Returns whether three packets with so many further bytes in their heads follow each other, or two, to the end of the slice.
fn is_long_row(order: Endianness, further: usize, packets: &[u8]) -> bool
    requires { further ≤ 12 }
    ensures { IsTrue result ↔ LongRow order further packets.now }
{
    packets.len() >= HEAD
        && HEAD + further + included(order, &packets[..HEAD]) < packets.len()
        && is_row(order, further, packets, 3)
}

// Returns the further bytes that the packets of a capture of a modified libpcap have.
fn modified(order: Endianness, packets: &[u8]) -> Further
    ensures { ShowsModified order packets.now result }
{
    if is_row(order, 8, packets, 2) {
        return Further::Eight;
    }
    if is_row(order, 12, packets, 2) {
        return Further::Twelve;
    }
    Further::Eight
}

// Returns the further bytes that the packets of a capture with the plain magic number have, if they have any.
fn with_plain_magic(order: Endianness, packets: &[u8]) -> Option<Further>
    ensures { ShowsPlain order packets.now result }
{
    if is_row(order, 0, packets, 2) {
        return None;
    }
    if is_long_row(order, 4, packets) {
        return Some(Further::Four);
    }
    if is_long_row(order, 8, packets) {
        return Some(Further::Eight);
    }
    None
}

// Returns the variant of a capture with this magic number, read with the highest byte first, and these packets.
fn shown(magic: u32, packets: &[u8]) -> Option<Variant>
    ensures { Shows magic packets.now result }
{
    if magic == 0xA1B2_CD34 {
        Some(Variant {
            order: Endianness::Big,
            further: modified(Endianness::Big, packets),
        })
    } else if magic == 0x34CD_B2A1 {
        Some(Variant {
            order: Endianness::Little,
            further: modified(Endianness::Little, packets),
        })
    } else if magic == 0xA1B2_C3D4 {
        plain(Endianness::Big, packets)
    } else if magic == 0xD4C3_B2A1 {
        plain(Endianness::Little, packets)
    } else {
        None
    }
}

// Returns the variant of a capture with the plain magic number, if it is of one.
fn plain(order: Endianness, packets: &[u8]) -> Option<Variant>
    ensures { IsPlain order packets.now result }
{
    let further = with_plain_magic(order, packets)?;
    Some(Variant { order, further })
}

/// Returns the variant of the capture with these first bytes. `None` if it is a plain capture, another file, or shorter than a file
/// header.
///
/// The magic number a1b2cd34 has packets with 8 further bytes in their heads, or 12 if only then two heads follow each other. The
/// magic number a1b2c3d4 has none if two plain heads follow each other, and otherwise 4 or 8 if three heads do then.
pub fn variant_of(bytes: &[u8]) -> Option<Variant>
    ensures { Recognizes bytes.now result }
{
    if bytes.len() < HEADER {
        return None;
    }
    shown(BigEndian::read_u32(bytes), behind(bytes, HEADER))
}
