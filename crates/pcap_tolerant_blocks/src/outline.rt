//! Interfaces read leniently, without a list of their options.

ghost use Rattle.std.specs.Prelude.{◌≡◌, List, ℕ, Option};
ghost use Rattle.std.specs.Option.{option_or};
ghost use Rattle.pcap_blocks.specs.InterfaceDescription.{Interface};
ghost use Rattle.pcap_options.specs.Held.{number_in, under};
ghost use Rattle.pcap_options.specs.InterfaceOption.{interface_description, interface_entry};
ghost use Rattle.pcap_options.specs.Values.{Entry};
ghost use Rattle.pcap_tolerant_blocks.specs.Flaws.{Said};
ghost use Rattle.pcap_tolerant_blocks.specs.InterfaceAsIs.{InterfaceText};
ghost use Rattle.pcap_tolerant_blocks.specs.OptionsAsIs.{OptionsAsIs};
ghost use Rattle.pcap_tolerant_blocks.specs.Outline.{IsOutlineOf, IsClockIn};

use crate::list::{OptionAsIs, option_as_is};
use byteorder::ByteOrder;
use pcap_blocks::InterfaceDescriptionOption;
use pcap_core::DataLink;
use pcap_core::fields::{split_u16, split_u32};

/// The fields of an interface that its packets need, without its other options.
#[derive(Clone, Copy, Debug)]
pub struct InterfaceOutline {
    /// The link type of the interface's packets.
    pub linktype: DataLink,
    /// The snapshot length; 0 is no limit.
    pub snaplen: u32,
    /// The byte of the first `IfTsResol` without a flaw.
    pub resolution: Option<u8>,
    /// The number of the first `IfTsOffset` without a flaw, as the bits of a signed number of seconds.
    pub offset: Option<u64>,
}

// The options of an interface's clock.
#[derive(Clone, Copy)]
pub(crate) struct ClockOptions {
    pub(crate) resolution: Option<u8>,
    pub(crate) offset: Option<u64>,
}

impl ClockOptions {
    // Returns these options, and those of another clock where there is none.
    fn and(self, other: ClockOptions) -> ClockOptions
        ensures resolution { result.resolution ≡ option_or self.resolution other.resolution }
        ensures offset { result.offset ≡ option_or self.offset other.offset }
    {
        ClockOptions {
            resolution: self.resolution.or(other.resolution),
            offset: self.offset.or(other.offset),
        }
    }
}

impl InterfaceOutline {
    /// Reads a block's body as an interface leniently, as `InterfaceAsIs::from_slice` does, but needs no memory. Returns None if
    /// the body has no room for the interface's head.
    pub fn from_slice<B: ByteOrder>(slice: &[u8]) -> Option<InterfaceOutline>
        ensures { (interface : Option Interface) (flaws : List Said) (rest : List ℕ) →
            InterfaceText B.number_of interface flaws slice.now rest → IsOutlineOf interface result }
    {
        if slice.len() < 8 {
            return None;
        }
        let (linktype, rest) = split_u16::<B>(slice);
        let (_reserved, rest) = split_u16::<B>(rest);
        let (snaplen, rest) = split_u32::<B>(rest);
        let link = DataLink::from(u32::from(linktype));
        let clock = clock_in::<B>(rest);
        Some(InterfaceOutline {
            linktype: link,
            snaplen,
            resolution: clock.resolution,
            offset: clock.offset,
        })
    }
}

// Returns the first resolution and the first offset among the options of an interface.
fn clock_in<B: ByteOrder>(options: &[u8]) -> ClockOptions
    ensures { (all : List Entry) (flaws : List Said) (rest : List ℕ) →
        OptionsAsIs B.number_of interface_description all flaws options.now rest → IsClockIn all result }
{
    let mut clock = ClockOptions {
        resolution: None,
        offset: None,
    };
    let mut left = options;
    while !left.is_empty() {
        let (after, option) = match option_as_is::<InterfaceDescriptionOption, B>(left) {
            Ok(read) => read,
            Err(_rule) => return clock,
        };
        let Some(read) = option else {
            return clock;
        };
        let next = clock.and(clock_of(read));
        clock = next;
        left = after;
    }
    clock
}

// Returns the resolution or the offset that an option is.
fn clock_of(read: OptionAsIs<InterfaceDescriptionOption>) -> ClockOptions
    ensures resolution { result.resolution ≡ under 9 number_in (interface_entry read.entry.option) }
    ensures offset { result.offset ≡ under 14 number_in (interface_entry read.entry.option) }
{
    ClockOptions {
        resolution: resolution_in(&read.option),
        offset: offset_in(&read.option),
    }
}

// Returns the byte of an `IfTsResol`.
fn resolution_in(option: &InterfaceDescriptionOption) -> Option<u8>
    ensures { result ≡ under 9 number_in (interface_entry option.now) }
{
    match option {
        InterfaceDescriptionOption::IfTsResol(byte) => Some(*byte),
        _ => None,
    }
}

// Returns the number of an `IfTsOffset`.
fn offset_in(option: &InterfaceDescriptionOption) -> Option<u64>
    ensures { result ≡ under 14 number_in (interface_entry option.now) }
{
    match option {
        InterfaceDescriptionOption::IfTsOffset(offset) => Some(*offset),
        _ => None,
    }
}
