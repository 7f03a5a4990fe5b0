//! Timestamps at the front of a slice.

ghost use Rattle.std.specs.Prelude.{◌≡◌, ◌≤◌, ◌+◌, length};
ghost use Rattle.pcap_blocks.specs.Time.{TimeText};

use byteorder::ByteOrder;
use pcap_core::fields::split_u32;

/// Reads the timestamp in the first eight bytes, its high half first, and returns it and the bytes after it.
pub fn split_time<B: ByteOrder>(bytes: &[u8]) -> (u64, &[u8])
    requires { 8 ≤ length bytes.now }
    ensures time { TimeText B.number_of result.0 bytes.now result.1.now }
    ensures rest { length result.1.now + 8 ≡ length bytes.now }
{
    let (high, rest) = split_u32::<B>(bytes);
    let (low, rest) = split_u32::<B>(rest);
    ((u64::from(high) << 32) + u64::from(low), rest)
}
