//! Sound options, whose values break no rule, copied byte by byte.

ghost use Rattle.std.specs.Prelude.{◌≡◌, ◌≤◌, ◌-◌, ◌++◌, ℕ, List, length, take, None, IfErr, OnOk, OnErr};
ghost use Rattle.pcap_core.specs.Answer.{number_in};
ghost use Rattle.pcap_tolerant_blocks.specs.OptionsAsIs.{flaws_or_none};
ghost use Rattle.pcap_tolerant_blocks.specs.SoundOptions.{SoundOptions, PutsFirst, PutsSome, are_none, kind_of, text_if};

use crate::flaws::Flaw;
use crate::list::{Unread, option_as_is};
use byteorder::{BigEndian, ByteOrder, LittleEndian};
use pcap_blocks::{
    EnhancedPacketOption, InterfaceDescriptionOption, InterfaceStatisticsOption, PacketOption,
    SectionHeaderOption,
};
use pcap_core::Endianness;
use std::alloc::AllocError;

/// The kind of block that options belong to.
#[derive(Clone, Copy, Debug, PartialEq, Eq)]
pub enum OptionsOf {
    /// The options of a section header.
    Section,
    /// The options of an interface description.
    Interface,
    /// The options of an enhanced packet.
    EnhancedPacket,
    /// The options of an obsolete packet block.
    Packet,
    /// The options of interface statistics.
    InterfaceStatistics,
}

/// Appends to `out` the unchanged bytes of each option at the front of a slice whose value breaks no rule.
///
/// The options end at their mark, which isn't appended, at the end of the slice, or where no next option can be found.
///
/// Returns `AllocError` if `out` can't grow. This can happen only if there is such an option. The options before it are then
/// appended.
pub fn put_sound_options(
    of: OptionsOf,
    order: Endianness,
    slice: &[u8],
    out: &mut Vec<u8>,
) -> Result<(), AllocError>
    ensures put { OnOk result ((kept : List ℕ) × SoundOptions (number_in order) (kind_of of) slice.now kept × (out.new.items ≡ out.old.items ++ kept)) }
    ensures memory { IfErr result (λ _. PutsSome (number_in order) (kind_of of) slice.now) }
    ensures begun { OnErr result (PutsFirst (number_in order) (kind_of of) slice.now out.old.items out.new.items) }
{
    match of {
        OptionsOf::Section => put_in::<SectionHeaderOption>(order, slice, out),
        OptionsOf::Interface => put_in::<InterfaceDescriptionOption>(order, slice, out),
        OptionsOf::EnhancedPacket => put_in::<EnhancedPacketOption>(order, slice, out),
        OptionsOf::Packet => put_in::<PacketOption>(order, slice, out),
        OptionsOf::InterfaceStatistics => put_in::<InterfaceStatisticsOption>(order, slice, out),
    }
}

// Appends the sound options of one kind of block.
fn put_in<'a, O: Unread<'a> + Drop>(
    order: Endianness,
    slice: &'a [u8],
    out: &mut Vec<u8>,
) -> Result<(), AllocError>
    ensures put { OnOk result ((kept : List ℕ) × SoundOptions (number_in order) O.kind slice.now kept × (out.new.items ≡ out.old.items ++ kept)) }
    ensures memory { IfErr result (λ _. PutsSome (number_in order) O.kind slice.now) }
    ensures begun { OnErr result (PutsFirst (number_in order) O.kind slice.now out.old.items out.new.items) }
{
    match order {
        Endianness::Big => put_sound::<O, BigEndian>(slice, out),
        Endianness::Little => put_sound::<O, LittleEndian>(slice, out),
    }
}

// Appends the bytes of the first option of `left`, which ends where `after` begins, if the option has no flaw.
fn put_if_sound(
    left: &[u8],
    after: &[u8],
    flaw: Option<Flaw>,
    out: &mut Vec<u8>,
) -> Result<(), AllocError>
    requires { length after.now ≤ length left.now }
    ensures put { OnOk result (out.new.items ≡ out.old.items ++ text_if (are_none (flaws_or_none flaw)) (take (length left.now - length after.now) left.now)) }
    ensures memory { IfErr result (λ _. flaw ≡ None) }
    ensures stays { OnErr result (out.new.items ≡ out.old.items) }
{
    match flaw {
        None => out.extend_from_slice(&left[..left.len() - after.len()]),
        Some(_flaw) => Ok(()),
    }
}

// Appends the sound options of one kind of block in one byte order.
fn put_sound<'a, O: Unread<'a> + Drop, B: ByteOrder>(
    slice: &'a [u8],
    out: &mut Vec<u8>,
) -> Result<(), AllocError>
    ensures put { OnOk result ((kept : List ℕ) × SoundOptions B.number_of O.kind slice.now kept × (out.new.items ≡ out.old.items ++ kept)) }
    ensures memory { IfErr result (λ _. PutsSome B.number_of O.kind slice.now) }
    ensures begun { OnErr result (PutsFirst B.number_of O.kind slice.now out.old.items out.new.items) }
{
    let mut left = slice;
    while !left.is_empty() {
        let (after, option) = match option_as_is::<O, B>(left) {
            Ok(read) => read,
            Err(_rule) => return Ok(()),
        };
        let Some(read) = option else {
            return Ok(());
        };
        put_if_sound(left, after, read.flaw, out)?;
        left = after;
    }
    Ok(())
}
