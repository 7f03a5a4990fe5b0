//! The entries of records, which are sorted in place of the records.

ghost use Rattle.std.specs.Prelude.{◌≡◌, ◌<◌, length, OnErr, OnOk, IsPermutation};
ghost use Rattle.std.specs.List.Sorted.{IsNonDecreasingBy, IsStableByKey};
ghost use Rattle.std.specs.Ordering.{nat_cmp};

use std::alloc::AllocError;

/// A record of a capture: its rank, its place and its length.
#[derive(Clone, Copy, Debug)]
pub(crate) struct Entry {
    /// The number by which records are sorted.
    pub(crate) rank: u128,
    /// The number of bytes of the capture before it.
    pub(crate) place: u64,
    /// The number of its bytes.
    pub(crate) length: usize,
}

/// Puts entries in order of rank. Entries of equal ranks keep their order.
pub(crate) fn put_in_order(entries: &mut Vec<Entry>) -> Result<(), AllocError>
    ensures same { IsPermutation entries.old.items entries.new.items }
    ensures ordered { OnOk result (IsNonDecreasingBy (λ (entry : Entry). entry.rank) entries.new.items) }
    ensures stable { IsStableByKey (λ (entry : Entry). entry.rank) nat_cmp entries.old.items entries.new.items }
    ensures needs { OnErr result (20 < length entries.old.items) }
{
    entries.sort_by_key(|entry| entry.rank)
}
