//! The numbers that the interfaces of an input have in the output.

ghost use Rattle.std.specs.Prelude.{⊤, ◌≡◌, ◌++◌, ◌∷◌, [], drop, MatchResult};
ghost use Rattle.pcap_core.specs.Errors.{IsMemory};
ghost use Rattle.pcapfile_merge.specs.Passing.{TellsNumber};

use pcap_file::ResultParsing;

// Returns the numbers after the first `n`.
#[inline(always)]
pub(crate) fn numbers_behind(numbers: &[u64], n: usize) -> &[u64]
    ensures { result.now ≡ drop n numbers.now }
{
    &numbers[n.min(numbers.len())..]
}

// Returns the output's number of an interface, if it has one of 32 bits.
#[inline(always)]
pub(crate) fn number_of(numbers: &[u64], interface: u32) -> Option<u32>
    ensures { TellsNumber numbers.now interface result }
{
    let number = *numbers.get(interface as usize)?;
    u32::try_from(number).ok()
}

// Appends the number of one more interface.
pub(crate) fn push_number(numbers: &mut Vec<u64>, number: u64) -> ResultParsing<()>
    ensures pushes { MatchResult result (λ done. numbers.new.items ≡ numbers.old.items ++ number ∷ []) IsMemory }
    ensures stays { MatchResult result (λ done. ⊤) (λ e. numbers.new.items ≡ numbers.old.items) }
{
    numbers.push(number)?;
    Ok(())
}
