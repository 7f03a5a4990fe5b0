//! Writers of a text for each block.

ghost use Rattle.std.specs.Prelude.{◌≡◌, ℕ, List};
ghost use Rattle.pcap_tolerant_captures.specs.Blocks.{Item};
ghost use Rattle.pcap_tolerant_captures.specs.ReaderAsIs.{lent_item};
ghost use Rattle.pcapfile_as_is.specs.declared.counted.Told.{Told as WasTold};
ghost use Rattle.pcapfile_as_is.specs.Texts.{WritesTold};

use crate::counted::{Spot, Told};
use pcap_program::Exit;
use pcap_tolerant_captures::{LentAsIs, PcapNgReaderAsIs};
use std::alloc::Global;
use std::io::Write;

/// A writer of a text for each block that is read leniently.
pub trait BlockTeller {
    ghost Setting: { Type 0 };

    ghost setting: { Self → Setting };

    ghost is_told: { Setting → ℕ → ℕ → Item → WasTold → List ℕ → Type 0 };

    /// Writes the text of the block that a reader lends, at this place. Returns whether the block has a number and a flaw; `at` has its
    /// number if it has one. Returns `Io` if the output fails, and `Memory` if there is no memory for the text.
    fn put<T, W: Write>(
        &mut self,
        alloc: Global,
        output: &mut W,
        at: Spot,
        reader: &PcapNgReaderAsIs<T>,
        lent: &LentAsIs,
    ) -> Result<Told, Exit>
        ensures same { setting self.new ≡ setting self.old }
        ensures writes { WritesTold (is_told (setting self.old) at.number at.place (lent_item reader.now lent.now))
            (W.contents output.old) (W.contents output.new) result };
}
