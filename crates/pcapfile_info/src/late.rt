//! Counts of an interface's packets, which take memory from the first packet on.

ghost use Rattle.std.specs.Prelude.{◌≡◌, ◌++◌, ◌∷◌, [], List, IfErr, IfOk, MatchResult};
ghost use Rattle.pcapfile_info.specs.declared.seen.Seen.{Seen};
ghost use Rattle.pcapfile_info.specs.Tallies.{no_tally, tally_of, Tallies};

use crate::seen::Seen;
use crate::tally::Tally;
use std::alloc::{AllocError, Global};

/// The counts of an interface's packets. They take memory from the first packet on.
#[derive(Debug, Drop)]
pub enum Late {
    /// The interface has no packet.
    NoPacket,
    /// The counts of the interface's packets.
    Packets(Box<Tally>),
}

// Returns the counts of a first packet.
#[inline(never)]
fn begin(alloc: Global, seen: Seen) -> Result<Late, AllocError>
    ensures { IfOk result (λ late. (packets : List Seen) → Tallies packets no_tally → Tallies (packets ++ seen ∷ []) (tally_of late)) }
{
    let mut tally = Tally::new();
    tally.add(seen);
    Ok(Late::Packets(Box::new(alloc, tally)?))
}

impl Late {
    /// Returns the counts of the interface's packets.
    pub fn tally(&self) -> Tally
        ensures { result ≡ tally_of self.now }
    {
        match self {
            Late::NoPacket => Tally::new(),
            Late::Packets(tally) => **tally,
        }
    }

    /// Counts one packet. `AllocError` if it is the first, and there is no memory for the counts; nothing is then counted.
    #[inline(always)]
    pub(crate) fn add(&mut self, alloc: Global, seen: Seen) -> Result<(), AllocError>
        ensures adds { MatchResult result
            (λ done. (packets : List Seen) → Tallies packets (tally_of self.old) → Tallies (packets ++ seen ∷ []) (tally_of self.new))
            (λ e. self.new ≡ self.old) }
        ensures memory { IfErr result (λ e. (tally_of self.old).packets ≡ 0) }
    {
        match self {
            Late::NoPacket => *self = begin(alloc, seen)?,
            Late::Packets(tally) => tally.add(seen),
        }
        Ok(())
    }
}
