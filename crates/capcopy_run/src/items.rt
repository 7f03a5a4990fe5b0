//! Listing the items of a capture, one line each.

ghost use Rattle.std.specs.Prelude.{◌≡◌, ◌≤◌, ◌<◌, ◌+◌, ℕ, List, length, true, IfOk, IfErr};
ghost use Rattle.pcap_program.specs.Exits.{IsMemoryExit};
ghost use Rattle.pcap_items.specs.Format.{Format};
ghost use Rattle.capcopy_run.specs.Listing.{ListsItems, streams};
ghost use Rattle.capcopy_run.specs.Turns.{TurnGives, WalkGives, turn, walk};

use pcap_program::Exit;
use std::alloc::Global;
use std::io::{BufRead, Write};

/// A writer of lines for items of one kind.
pub trait Lister {
    ghost Setting: { Type 0 };

    ghost State: { Type 0 };

    ghost Value: { Type 0 };

    ghost grows: { Type 0 };

    ghost is_line: { Setting → ℕ → Value → List ℕ → Type 0 };

    ghost format: { Setting → Format State Value };

    ghost setting: { Self → Setting };

    ghost state: { Self → State };

    /// Writes a line for each whole item at the front of these bytes, and returns the number of bytes of these items. Counts each listed
    /// item in `listed`, up to `most`. Returns `Io` if the output fails, and `Memory` if a line can't be made for lack of memory.
    fn list_shown<W: Write>(
        &mut self,
        alloc: Global,
        shown: &[u8],
        output: &mut W,
        listed: &mut u64,
        most: u64,
    ) -> Result<usize, Exit>
        requires { listed.old ≤ most }
        ensures same { setting self.new ≡ setting self.old }
        ensures counts { (listed.old ≤ listed.new) × (listed.new ≤ most) }
        ensures within { IfOk result (λ used. used ≤ length shown.now) }
        ensures memory { IfErr result (λ exit. IsMemoryExit exit → grows) }
        ensures walks { WalkGives (is_line (setting self.old)) (format (setting self.old)) shown.now
            (walk (state self.old) (W.contents output.old) listed.old) (walk (state self.new) (W.contents output.new) listed.new) most result };

    /// Writes the line of the item at the front of the input, and returns whether there was one. Returns the errors of `list_shown`, `Io`
    /// if the input fails or ends early, and `Refused` if the item is malformed.
    fn list_torn<R: BufRead, W: Write>(
        &mut self,
        alloc: Global,
        input: &mut R,
        output: &mut W,
        listed: &mut u64,
        most: u64,
    ) -> Result<bool, Exit>
        requires { listed.old < most }
        ensures same { setting self.new ≡ setting self.old }
        ensures counts { IfOk result (λ more. (more ≡ true → listed.new ≡ listed.old + 1)) }
        ensures memory { IfErr result (λ exit. IsMemoryExit exit → grows) }
        ensures turn { TurnGives (is_line (setting self.old)) (format (setting self.old))
            (turn (state self.old) (R.remaining input.old) (W.contents output.old) listed.old)
            (turn (state self.new) (R.remaining input.new) (W.contents output.new) listed.new) most result };
}

// Writes the lines of the items that are whole in the input's buffer, or else of the item cut by the end of the buffer. It flushes the
// lines so far before the input may wait.
fn list_some<L: Lister, R: BufRead, W: Write>(
    alloc: Global,
    lister: &mut L,
    input: &mut R,
    output: &mut W,
    listed: &mut u64,
    most: u64,
) -> Result<bool, Exit>
    requires { listed.old < most }
    ensures same { L.setting lister.new ≡ L.setting lister.old }
    ensures counts { IfOk result (λ more. (more ≡ true → (listed.old < listed.new) × (listed.new ≤ most))) }
    ensures memory { IfErr result (λ exit. IsMemoryExit exit → L.grows) }
    ensures turn { TurnGives (L.is_line (L.setting lister.old)) (L.format (L.setting lister.old))
        (turn (L.state lister.old) (R.remaining input.old) (W.contents output.old) listed.old)
        (turn (L.state lister.new) (R.remaining input.new) (W.contents output.new) listed.new) most result }
{
    output.flush()?;
    let shown = input.fill_buf()?;
    if shown.is_empty() {
        return Ok(false);
    }
    let before = *listed;
    let used = lister.list_shown(alloc, shown, output, listed, most)?;
    input.consume(used);
    if *listed > before {
        return Ok(true);
    }
    lister.list_torn(alloc, input, output, listed, most)
}

/// Writes a line for each item of the input, and returns `Most` once `most` lines are written. Returns the other errors of the lister,
/// and `Io` if the output can't be flushed.
pub fn list_items<L: Lister, R: BufRead, W: Write>(
    alloc: Global,
    lister: &mut L,
    input: &mut R,
    output: &mut W,
    most: u64,
) -> Result<(), Exit>
    ensures memory { IfErr result (λ exit. IsMemoryExit exit → L.grows) }
    ensures lists { ListsItems (L.is_line (L.setting lister.old)) (L.format (L.setting lister.old)) (L.state lister.old)
        (streams (R.remaining input.old) (W.contents output.old)) (streams (R.remaining input.new) (W.contents output.new)) most result }
{
    let mut listed = 0;
    while listed < most {
        if !list_some(alloc, lister, input, output, &mut listed, most)? {
            return Ok(());
        }
    }
    Err(Exit::Most)
}
