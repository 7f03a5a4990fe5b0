//! The part that enhanced packets and packet blocks share: the time, the lengths, the data and the options.

ghost use Rattle.std.specs.Prelude.{◌≤◌, length, IfOk};
ghost use Rattle.pcap_options.specs.Refusal.{FindsWhere};
ghost use Rattle.pcap_blocks.specs.StoredPacket.{StoredSays, stored_of, StoredIsBorrowed, StoredMayGrow};

use crate::time::split_time;
use byteorder::ByteOrder;
use pcap_core::CowBytes;
use pcap_core::fields::{split_padded, split_u32};
use pcap_core::rules::Rule;
use pcap_options::{ListedOption, Refusal};
use std::alloc::Global;

// A packet without its interface.
#[derive(Drop)]
pub(crate) struct StoredPacket<'a, O> {
    pub(crate) timestamp: u64,
    pub(crate) captured_len: u32,
    pub(crate) original_len: u32,
    pub(crate) data_: CowBytes<'a>,
    pub(crate) options: Vec<O>,
}

// Reads the packet at the front of a slice, and returns the bytes after its options and the packet.
pub(crate) fn stored_from_slice<'a, O: ListedOption<'a> + Drop, B: ByteOrder>(
    alloc: Global,
    slice: &'a [u8],
) -> Result<(&'a [u8], StoredPacket<'a, O>), Refusal>
    requires { 16 ≤ length slice.now }
    ensures tells { FindsWhere (StoredMayGrow B.number_of O.kind slice.now) (StoredSays B.number_of O.kind slice.now) (stored_of O.entry) result }
    ensures borrowed { IfOk result (λ x. StoredIsBorrowed O.is_borrowed x.1) }
{
    let (timestamp, rest) = split_time::<B>(slice);
    let (captured_len, rest) = split_u32::<B>(rest);
    let (original_len, rest) = split_u32::<B>(rest);
    let Some((bytes, rest)) = split_padded(rest, captured_len as usize) else {
        return Err(Refusal::Invalid(Rule::EnhancedCut));
    };
    let (rest, options) = O::list_from_slice::<B>(alloc, rest)?;
    let packet = StoredPacket {
        timestamp,
        captured_len,
        original_len,
        data_: CowBytes::Borrowed(bytes),
        options,
    };
    Ok((rest, packet))
}
