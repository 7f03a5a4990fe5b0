//! Totals of the items of a capture.

ghost use Rattle.std.specs.Prelude.{◌≡◌, List, [], IfErr, IfOk, MatchResult, length};
ghost use Rattle.pcap_classic.specs.PacketText.{Captured};
ghost use Rattle.pcapfile_info.specs.declared.seen.Sight.TheVariants.{Packet};
ghost use Rattle.pcapfile_info.specs.Sights.{IsPacketSight};
ghost use Rattle.pcapfile_info.specs.Telling.{AreSights};
ghost use Rattle.pcapfile_info.specs.Totals.{Adds, AllAre, IsBelow, IsFirstBy, IsWithin, NeedsRoom, Stay, TotalsAre};

use crate::late::Late;
use crate::others::Others;
use crate::seen::{Seen, Sight};
use crate::tally::Tally;
use std::alloc::{AllocError, Global};

/// The totals of the items of a capture. A number above 2^64 - 1 is reported as 2^64 - 1.
#[derive(Debug, Drop)]
pub struct Totals {
    /// The number of sections after the first.
    pub sections: u64,
    /// The number of packets with a malformed body. They are counted nowhere else.
    pub refused: u64,
    /// The counts of blocks that are no packets, no interfaces and no section headers.
    pub others: Others,
    /// The counts of all packets.
    pub all: Tally,
    /// The counts of the packets whose interface isn't described.
    pub undescribed: Tally,
    /// The counts of the packets of each described interface, in order over all sections. A classic capture has one interface.
    pub interfaces: Vec<Late>,
}

impl Totals {
    /// Returns the totals of no items, without an interface.
    pub(crate) fn new(alloc: Global) -> Totals
        ensures { TotalsAre 0 [] result }
    {
        Totals {
            sections: 0,
            refused: 0,
            others: Others::new(),
            all: Tally::new(),
            undescribed: Tally::new(),
            interfaces: Vec::new(alloc),
        }
    }

    /// Returns the totals of no items, with one interface.
    pub(crate) fn with_interface(alloc: Global) -> Result<Totals, AllocError>
        ensures { IfOk result (TotalsAre 1 []) }
    {
        let mut totals = Totals::new(alloc);
        totals.interfaces.push(Late::NoPacket)?;
        Ok(totals)
    }

    /// Counts one packet. `AllocError` if it is its interface's first, and there is no memory for the interface's counts; the
    /// totals are then unchanged.
    #[inline(always)]
    pub(crate) fn add_packet(&mut self, alloc: Global, seen: Seen) -> Result<(), AllocError>
        requires { IsBelow (length self.old.interfaces.items) seen.interface }
        ensures adds { MatchResult result (λ done. Adds (Packet seen) self.old self.new) (λ e. Stay self.old self.new) }
        ensures memory { IfErr result (λ e. IsFirstBy self.old seen) }
    {
        match seen.interface {
            None => self.undescribed.add(seen),
            Some(index) => self.interfaces[index].add(alloc, seen)?,
        }
        self.all.add(seen);
        Ok(())
    }

    /// Copies the counts of all packets into `own`, and gives it to the one interface that captured them.
    pub(crate) fn give_to_the_interface(&mut self, mut own: Box<Tally>)
        requires { length self.old.interfaces.items ≡ 1 }
        ensures { (packets : List Captured) (sights : List Sight)
            → AreSights IsPacketSight 1 packets sights → AllAre sights self.old → TotalsAre 1 sights self.new }
    {
        *own = self.all;
        self.interfaces[0] = Late::Packets(own);
    }

    /// Counts one item. `AllocError` if there is no memory for another interface, or for the counts of one that has its first
    /// packet; the totals are then unchanged.
    pub(crate) fn add(&mut self, alloc: Global, sight: Sight) -> Result<(), AllocError>
        requires { IsWithin (length self.old.interfaces.items) sight }
        ensures adds { MatchResult result (λ done. Adds sight self.old self.new) (λ e. Stay self.old self.new) }
        ensures memory { IfErr result (λ e. NeedsRoom self.old sight) }
    {
        match sight {
            Sight::Packet(seen) => self.add_packet(alloc, seen)?,
            Sight::Refused => self.refused = self.refused.saturating_add(1),
            Sight::Interface => self.interfaces.push(Late::NoPacket)?,
            Sight::Section => self.sections = self.sections.saturating_add(1),
            Sight::Other(kind) => self.others.add(kind),
        }
        Ok(())
    }
}
