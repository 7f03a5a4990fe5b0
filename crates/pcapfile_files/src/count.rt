//! Numbers of things in messages.

ghost use Rattle.std.specs.Prelude.{Some};
ghost use Rattle.pcapfile_files.specs.Counts.{count_text};

use std::fmt;

/// A number of things, displayed with a phrase: the first if there is one thing, and otherwise the second.
#[derive(Clone, Copy)]
pub struct Count<'a>(pub u64, pub &'a str, pub &'a str);

impl fmt::Display for Count<'_> {
    ghost output = { λ count. Some (count_text count.0 count.1.now count.2.now) };

    fn fmt<W: fmt::Write>(&self, f: &mut fmt::Formatter<W>) -> fmt::Result {
        let Count(number, one, several) = *self;
        if number == 1 {
            return write!(f, "{number} {one}");
        }
        write!(f, "{number} {several}")
    }
}
