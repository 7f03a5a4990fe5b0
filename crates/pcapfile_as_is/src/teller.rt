//! Writers of a text for each packet.

ghost use Rattle.std.specs.Prelude.{◌≡◌, ℕ, List};
ghost use Rattle.pcap_classic.specs.declared.common.TsResolution.{TsResolution as Resolution};
ghost use Rattle.pcap_tolerant.specs.AsIs.{AsIs, as_it_is};
ghost use Rattle.pcap_program.specs.Lines.{WritesLine};

use crate::counted::Spot;
use pcap_classic::TsResolution;
use pcap_program::Exit;
use pcap_tolerant::PacketAsIs;
use std::alloc::Global;
use std::io::Write;

/// A writer of a text for each packet that is read leniently.
pub trait Teller {
    ghost Setting: { Type 0 };

    ghost setting: { Self → Setting };

    ghost text: { Setting → Resolution → ℕ → ℕ → AsIs → List ℕ };

    /// Writes the text of the packet with this number, at this place. Returns `Io` if the output fails, and `Memory` if there is no memory
    /// for the text.
    fn put<W: Write>(
        &mut self,
        alloc: Global,
        output: &mut W,
        ts_resolution: TsResolution,
        at: Spot,
        packet: &PacketAsIs<'_>,
    ) -> Result<(), Exit>
        ensures same { setting self.new ≡ setting self.old }
        ensures writes { WritesLine (λ line. line ≡ text (setting self.old) ts_resolution at.number at.place (as_it_is packet.now))
            (W.contents output.old) (W.contents output.new) result };
}
