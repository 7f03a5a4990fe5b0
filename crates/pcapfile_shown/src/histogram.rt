//! A histogram of packet lengths.

ghost use Rattle.std.specs.Prelude.{◌≡◌, ◌<◌, ◌≤◌, ◌+◌, ◌⊎◌, slice_get, slice_index, All, Contains};

use crate::bar::bar_of;
use pcapfile_info::{CLASSES, LEAST};
use std::fmt;

/// The histogram of packet lengths, one line for each class that has a packet.
#[derive(Clone, Copy)]
pub(crate) struct Sizes(pub(crate) [u64; CLASSES]);

/// The lengths of a class; the last class has no upper bound.
#[derive(Clone, Copy)]
struct Range {
    least: u32,
    above: Option<u32>,
}

impl fmt::Display for Range {
    fn fmt<W: fmt::Write>(&self, f: &mut fmt::Formatter<W>) -> fmt::Result {
        let least = self.least;
        match self.above {
            None => write!(f, "{least:>6} or more "),
            Some(above) => {
                let most = above.saturating_sub(1);
                write!(f, "{least:>6} to {most:<6}")
            }
        }
    }
}

// Returns the lengths of the class of this number.
fn range_of(class: usize) -> Range
    requires { class < 10 }
    ensures least { result.least ≡ slice_index LEAST class }
    ensures above { result.above ≡ slice_get LEAST (class + 1) }
{
    let above = if class + 1 < CLASSES {
        Some(LEAST[class + 1])
    } else {
        None
    };
    Range {
        least: LEAST[class],
        above,
    }
}

// Returns the largest of the counts.
fn largest(counts: &[u64; CLASSES]) -> u64
    ensures bound { All (λ count. count ≤ result) counts.now }
    ensures is { (result ≡ 0) ⊎ Contains counts.now result }
{
    let mut largest = 0;
    for count in counts.iter() {
        largest = (*count).max(largest);
    }
    largest
}

impl fmt::Display for Sizes {
    fn fmt<W: fmt::Write>(&self, f: &mut fmt::Formatter<W>) -> fmt::Result {
        let largest = largest(&self.0);
        for class in 0..CLASSES {
            let count = self.0[class];
            if count > 0 {
                let range = range_of(class);
                let bar = bar_of(count, largest);
                writeln!(f, "  {range} {count:>12} {bar}")?;
            }
        }
        Ok(())
    }
}
