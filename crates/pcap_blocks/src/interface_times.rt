//! Times of an interface.

ghost use Rattle.pcap_blocks.specs.InterfaceDescription.{interface_of};
ghost use Rattle.pcap_blocks.specs.InterfaceTimes.{IsClockOf, IsTimeAt};
ghost use Rattle.std.specs.Prelude.{◌≡◌, map};
ghost use Rattle.pcap_options.specs.InterfaceOption.{interface_entry};
ghost use Rattle.pcap_options.specs.Held.{number_in, under, first_under};

use crate::interface_description::InterfaceDescriptionBlock;
use pcap_options::{InterfaceDescriptionOption, first_number};
use pcap_times::{Clock, TimeUnit, Timestamp};

impl InterfaceDescriptionBlock<'_> {
    /// Returns the interface's clock. Its unit is that of the first `IfTsResol`, or a microsecond if there is none. Its
    /// offset is the first `IfTsOffset` in seconds, as a signed number, or 0 if there is none.
    pub fn clock(&self) -> Clock
        ensures { IsClockOf (interface_of self.now) result }
    {
        Clock {
            unit: TimeUnit::from_byte(first_resolution(&self.options).unwrap_or(6)),
            offset: first_number(&self.options, 14).unwrap_or(0).cast_signed(),
        }
    }

    /// Returns the time of this many units, such as the `timestamp` of a packet of this interface, rounded down to
    /// whole nanoseconds. For many packets, call `clock` once and use it for each time.
    pub fn timestamp(&self, units: u64) -> Timestamp
        ensures { IsTimeAt (interface_of self.now) units result }
    {
        self.clock().timestamp(units)
    }
}

// Returns the byte of the first `IfTsResol`.
#[tactic(auto, using(pcap_options::proofs::Found::found, pcap_options::proofs::Found::missed))]
fn first_resolution(options: &[InterfaceDescriptionOption]) -> Option<u8>
    ensures { result ≡ first_under 9 number_in (map interface_entry options.now) }
{
    for option in options {
        if let Some(byte) = resolution(option) {
            return Some(byte);
        }
    }
    None
}

// Returns the byte of an `IfTsResol`.
fn resolution(option: &InterfaceDescriptionOption) -> Option<u8>
    ensures { result ≡ under 9 number_in (interface_entry option.now) }
{
    match option {
        InterfaceDescriptionOption::IfTsResol(byte) => Some(*byte),
        _ => None,
    }
}
