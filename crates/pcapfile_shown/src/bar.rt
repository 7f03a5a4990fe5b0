//! Bars of text.

ghost use Rattle.std.specs.Prelude.{◌≡◌, Some, replicate};
ghost use Rattle.pcapfile_shown.specs.Texts.{bar_length};

use std::fmt;

/// The length of the largest number's bar.
const LONGEST: u128 = 40;

/// A bar of this many `#` signs.
#[derive(Clone, Copy, Debug)]
pub struct Bar(pub u64);

/// Returns the bar of a count: its share of the largest count, whose bar has 40 signs, rounded up.
pub fn bar_of(count: u64, largest: u64) -> Bar
    ensures { result.0 ≡ bar_length count largest }
{
    if largest == 0 {
        return Bar(0);
    }
    let largest = u128::from(largest);
    let signs = (u128::from(count) * LONGEST + largest - 1) / largest;
    Bar(signs.min(LONGEST) as u64)
}

impl fmt::Display for Bar {
    ghost output = { λ bar. Some (replicate bar.0 35) };

    fn fmt<W: fmt::Write>(&self, f: &mut fmt::Formatter<W>) -> fmt::Result {
        for _sign in 0..self.0 {
            write!(f, "#")?;
        }
        Ok(())
    }
}
