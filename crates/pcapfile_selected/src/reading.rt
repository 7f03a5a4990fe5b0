//! Captures of which a command reads all packets or the selected ones.

ghost use Rattle.std.specs.Io.{ReadsAtMost};
ghost use Rattle.std.specs.Io.KnownBytes.{ReadConsumes};
ghost use Rattle.pcapfile_selected.specs.Readings.{BeginsReading, Reads, left_of};

use crate::account::Account;
use crate::selected::Selected;
use crate::selecting::Tests;
use pcap_file::ResultParsing;
use pcapfile_files::{Console, buffered};
use std::io;
use std::io::Read;
use std::rc::Rc;

/// A capture that a command reads.
pub enum Reading<'a, R> {
    /// All of the capture.
    All(R),
    /// The bytes that `cut` writes of the capture.
    Selected(Selected<'a, R>),
}

// It is written out, so that crates above this one call it and prove no drop of the fields.
impl<R: Drop> Drop for Reading<'_, R> {
    fn drop(self) {
        match self {
            Reading::All(_capture) => {}
            Reading::Selected(_selected) => {}
        }
    }
}

impl<'a, R: Read + Drop> Reading<'a, R> {
    /// Returns the capture, or only its selected packets if there are tests. The errors of the selection are those of the beginning of the
    /// capture. The account gets what a command reports on the selection after it has read it.
    pub fn new(
        console: &Console,
        capture: R,
        tests: Option<Tests<'a>>,
        account: &Rc<Account>,
    ) -> ResultParsing<Reading<'a, R>>
        ensures { BeginsReading R.remaining tests.entry capture result }
    {
        let Some(tests) = tests else {
            return Ok(Reading::All(capture));
        };
        let alloc = console.alloc();
        let input = buffered(alloc, capture)?;
        let selected = Selected::new(alloc, input, tests, account.clone()?)?;
        Ok(Reading::Selected(selected))
    }
}

impl<R: Read + Drop> Read for Reading<'_, R> {
    ghost remaining = { left_of R.remaining };

    fn read(&mut self, buf: &mut [u8]) -> io::Result<usize>
        ensures bound { ReadsAtMost result buf.new }
        ensures bytes { ReadConsumes (left_of R.remaining self.old) (left_of R.remaining self.new) result buf.new }
        ensures reads { Reads R.remaining self.old self.new result buf.new }
    {
        match self {
            Reading::All(capture) => capture.read(buf),
            Reading::Selected(selected) => selected.read(buf),
        }
    }
}
