//! Numbers at the front of a slice, in a byte order that is a value.

ghost use Rattle.std.specs.Prelude.{◌≡◌, ◌≤◌, ◌+◌, length};
ghost use Rattle.pcap_core.specs.Answer.{Number, number_in};

use byteorder::{BigEndian, ByteOrder, LittleEndian};
use pcap_core::Endianness;
use pcap_core::fields::split_u32;

// Returns the number in the first four bytes, and the bytes after them.
pub(crate) fn split_u32_in(order: Endianness, bytes: &[u8]) -> (u32, &[u8])
    requires { 4 ≤ length bytes.now }
    ensures number { Number (number_in order) 4 result.0 bytes.now result.1.now }
    ensures rest { length result.1.now + 4 ≡ length bytes.now }
{
    match order {
        Endianness::Big => split_u32::<BigEndian>(bytes),
        Endianness::Little => split_u32::<LittleEndian>(bytes),
    }
}

// Returns the number in four bytes.
pub(crate) fn u32_in(order: Endianness, bytes: &[u8]) -> u32
    requires { length bytes.now ≡ 4 }
    ensures { number_in order 4 bytes.now ≡ result }
{
    match order {
        Endianness::Big => BigEndian::read_u32(bytes),
        Endianness::Little => LittleEndian::read_u32(bytes),
    }
}
