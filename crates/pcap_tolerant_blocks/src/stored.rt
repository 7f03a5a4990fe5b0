//! The part after the interface that both kinds of packets with a time share.

ghost use Rattle.std.specs.Prelude.{◌≤◌, length, MatchOption};
ghost use Rattle.pcap_tolerant_blocks.specs.StoredAsIs.{NoBytes, HasBytes};

use byteorder::ByteOrder;
use pcap_blocks::split_time;
use pcap_core::fields::{split_padded, split_u32};

// A packet without its interface and its options.
#[derive(Clone, Copy)]
pub(crate) struct StoredBytes<'a> {
    pub(crate) timestamp: u64,
    pub(crate) captured_len: u32,
    pub(crate) original_len: u32,
    pub(crate) bytes: &'a [u8],
}

// Splits the packet at the front of a slice from what follows the padding of its bytes. Returns None if the slice lacks bytes
// that the packet's head states.
#[inline(always)]
pub(crate) fn split_stored<'a, B: ByteOrder>(slice: &'a [u8]) -> Option<(StoredBytes<'a>, &'a [u8])>
    requires { 16 ≤ length slice.now }
    ensures { MatchOption result (NoBytes B.number_of slice.now) (λ x. HasBytes B.number_of x.0 slice.now x.1.now) }
{
    let (timestamp, rest) = split_time::<B>(slice);
    let (captured_len, rest) = split_u32::<B>(rest);
    let (original_len, rest) = split_u32::<B>(rest);
    let Some((bytes, rest)) = split_padded(rest, captured_len as usize) else {
        return None;
    };
    let stored = StoredBytes {
        timestamp,
        captured_len,
        original_len,
        bytes,
    };
    Some((stored, rest))
}
