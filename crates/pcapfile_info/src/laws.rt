//! Laws of the totals of captures. The contract of each function says what is proved of it.

ghost use Rattle.std.specs.Prelude.{◌≡◌, ◌-◌, ℕ, [], ◌∷◌, map, drop};
ghost use Rattle.pcapfile_info.specs.Tallies.{size_class};

use crate::tally::LEAST;

/// Each class of lengths begins with its least length, and ends one below that of the next class.
pub fn least_lengths_begin_their_classes()
    ensures begin { map size_class LEAST ≡ 0 ∷ 1 ∷ 2 ∷ 3 ∷ 4 ∷ 5 ∷ 6 ∷ 7 ∷ 8 ∷ 9 ∷ [] }
    ensures end { map (λ (least : ℕ). size_class (least - 1)) (drop 1 LEAST) ≡ 0 ∷ 1 ∷ 2 ∷ 3 ∷ 4 ∷ 5 ∷ 6 ∷ 7 ∷ 8 ∷ [] }
{}
