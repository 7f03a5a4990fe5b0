//! The interfaces of a section, read leniently.

ghost use Rattle.std.specs.Prelude.{◌≡◌, [], map, option_map, length, IfOk, IfErr, OnErr};
ghost use Rattle.pcap_core.specs.Errors.{IsMemory};
ghost use Rattle.pcap_blocks.specs.InterfaceDescription.{interface_of};
ghost use Rattle.pcap_tolerant_blocks.specs.Flaws.{said_of};
ghost use Rattle.pcap_tolerant_blocks.specs.InForce.{in_force, known, Adds, IsTimeBy};

use crate::flaws::Flaw;
use crate::interface::InterfaceAsIs;
use byteorder::ByteOrder;
use pcap_blocks::{InterfaceDescriptionBlock, Timestamp};
use pcap_core::ResultParsing;
use std::alloc::Global;

/// The interfaces of a section read leniently, by the numbers that packets use for them. An interface whose body has no room
/// for its head keeps its number, so that later interfaces keep theirs.
#[derive(Drop)]
pub struct InterfacesAsIs {
    interfaces: Vec<Option<InterfaceDescriptionBlock<'static>>>,
}

impl InterfacesAsIs {
    /// Returns the interfaces of a section that has none yet.
    pub fn new(alloc: Global) -> InterfacesAsIs
        ensures { in_force result ≡ [] }
    {
        InterfacesAsIs {
            interfaces: Vec::new(alloc),
        }
    }

    /// Reads a body as an interface leniently, adds the interface under the next number, and returns its flaws.
    ///
    /// Returns `OutOfMemory` if the interface can't be kept. The interfaces are then unchanged.
    pub fn add<B: ByteOrder>(&mut self, alloc: Global, body: &[u8]) -> ResultParsing<Vec<Flaw>>
        ensures added { IfOk result (λ flaws. Adds B.number_of body.now (map said_of flaws.items) (in_force self.old) (in_force self.new)) }
        ensures memory { IfErr result IsMemory }
        ensures stays { OnErr result (in_force self.new ≡ in_force self.old) }
    {
        let (_rest, read) = InterfaceAsIs::from_slice::<B>(alloc, body)?;
        let InterfaceAsIs { interface, flaws } = read;
        let kept = match interface {
            None => None,
            Some(interface) => Some(interface.into_owned(alloc)?),
        };
        self.interfaces.push(kept)?;
        Ok(flaws)
    }

    /// Returns the number of interfaces in force, including those whose body has no room for their head.
    pub fn len(&self) -> usize
        ensures { result ≡ length (in_force self.now) }
    {
        self.interfaces.len()
    }

    /// Returns the interface with this number. Returns None past the last interface, and for one whose body has no room for its
    /// head.
    pub fn get(&self, number: u32) -> Option<&InterfaceDescriptionBlock<'static>>
        ensures { option_map (λ interface. interface_of interface.now) result ≡ known number (in_force self.now) }
    {
        match self.interfaces.get(number as usize) {
            Some(Some(interface)) => Some(interface),
            _ => None,
        }
    }

    /// Returns the time of `units` units by the clock of the interface with this number, rounded down to whole nanoseconds.
    /// Returns None if there is no known interface with that number.
    pub fn timestamp(&self, number: u32, units: u64) -> Option<Timestamp>
        ensures { IsTimeBy (known number (in_force self.now)) units result }
    {
        match self.get(number) {
            None => None,
            Some(interface) => Some(interface.timestamp(units)),
        }
    }
}
