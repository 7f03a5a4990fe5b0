//! Formats whose captures are sorted.

ghost use Rattle.std.specs.Prelude.{◌≡◌, true, false};
ghost use Rattle.pcapfile_sort.specs.Ranked.{ranked_at};
ghost use Rattle.pcapfile_sort.specs.Sortable.{Sortable};

/// The opening of a capture, as far as the second pass over its records needs it.
pub(crate) trait Records {
    ghost format: { Sortable };

    ghost opening: { Self → format.Opening };

    /// Returns the bytes before the first record.
    fn lead(&self) -> &[u8]
        ensures { result.now ≡ format.lead (opening self.now) };

    /// Returns whether these bytes are a record of this rank, as far as the second pass can see.
    fn is_record(&self, rank: u128, text: &[u8]) -> bool
        ensures yes { result ≡ true → format.Is (opening self.now) (ranked_at rank text.now) }
        ensures no { result ≡ false → format.Is (opening self.now) (ranked_at rank text.now) → ⊥ };
}
