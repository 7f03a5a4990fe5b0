//! Items of any format, counted where they are whole in the input's buffer.

ghost use Rattle.std.specs.Prelude.{◌≡◌, ◌<◌, ◌≤◌, ℕ, List, Option, false, drop, length};
ghost use Rattle.std.specs.Io.KnownBytes.{prepend_known};
ghost use Rattle.pcap_items.specs.Format.{Format};
ghost use Rattle.pcapfile_info.specs.Describing.{SameDescribed};
ghost use Rattle.pcapfile_info.specs.Telling.{GoesOn, TurnGives};

use crate::progress::Progress;
use crate::seen::Sight;
use pcap_file::{PcapError, ResultParsing};
use std::io::BufRead;

/// The state before a walk over a buffer, and how to count the items there.
pub(crate) trait Passes {
    ghost use Rattle.pcapfile_info.specs.declared.progress.Progress.{Progress};
    ghost use Rattle.pcapfile_info.specs.declared.seen.Sight.{Sight};

    ghost State: { Type 0 };

    ghost Value: { Type 0 };

    ghost format: { Self → Format State Value };

    ghost is_valid: { Self → Type 0 };

    ghost stands_for: { Self → State → Type 0 };

    ghost is_sight: { ℕ → Value → Sight → Type 0 };

    ghost first: { ℕ };

    ghost kept: { State → List Value → List Sight → Progress → Type 0 };

    /// Counts items that are whole at the front of these bytes and don't change the state, and returns how many bytes they
    /// take.
    fn pass(&self, shown: &[u8], progress: &mut Progress) -> usize
        requires valid { is_valid self.now }
        requires fewer { progress.old.items ≤ 18446744073709551614 }
        ensures within { result ≤ length shown.now }
        ensures few { (progress.old.items ≤ progress.new.items) × (progress.new.items ≤ 18446744073709551614) }
        ensures same { SameDescribed progress.old progress.new }
        ensures walks { (q : State) → stands_for self.now q → (behind : Option (List ℕ)) → GoesOn (format self.now) is_sight first kept q q
            (prepend_known shown.now behind) (prepend_known (drop result shown.now) behind) progress.old progress.new };
}

/// Counts the items that are whole in the input's buffer, and returns whether the buffer had any bytes.
pub(crate) fn pass_shown<R: BufRead, P: Passes>(
    ahead: &P,
    input: &mut R,
    read_failed: &mut bool,
    progress: &mut Progress,
) -> ResultParsing<bool>
    requires valid { P.is_valid ahead.now }
    requires unfailed { read_failed.old ≡ false }
    requires fewer { progress.old.items < 18446744073709551614 }
    ensures few { (progress.old.items ≤ progress.new.items) × (progress.new.items ≤ 18446744073709551614) }
    ensures same { SameDescribed progress.old progress.new }
    ensures turn { (q : P.State) → P.stands_for ahead.now q → TurnGives (P.format ahead.now) P.is_sight P.first P.kept
        (λ fault. P.kept) q q (R.remaining input.old) (R.remaining input.new) read_failed.new 18446744073709551614 progress.old progress.new result }
{
    let shown = match input.fill_buf() {
        Ok(shown) => shown,
        Err(error) => {
            *read_failed = true;
            return Err(PcapError::IoError(error));
        }
    };
    if shown.is_empty() {
        return Ok(false);
    }
    let used = ahead.pass(shown, progress);
    input.consume(used);
    Ok(true)
}
