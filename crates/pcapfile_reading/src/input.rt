//! Captures that a command reads: unchanged or repaired, and all of their packets or the selected ones.

ghost use Rattle.std.specs.Prelude.{None};

use pcap_file::ResultParsing;
use pcapfile_files::Console;
use pcapfile_lenient::Captured;
use pcapfile_selected::{Account, Reading, Tests};
use std::io;
use std::io::Read;
use std::rc::Rc;

/// A capture that a command reads.
///
/// The type names one lifetime, that of the tests. So it can be the argument of a generic function, which a type with the lifetimes
/// inside a repair can't.
pub struct Input<'a> {
    capture: Reading<'a, Captured>,
}

// It is written out, so that crates above this one call it and prove no drop of the fields.
impl Drop for Input<'_> {
    fn drop(self) {
        let Input { capture: _ } = self;
    }
}

impl<'a> Input<'a> {
    /// Returns the capture, or only its selected packets if there are tests. The errors and the account are those of `Reading::new`.
    pub fn new(
        console: &Console,
        capture: Captured,
        tests: Option<Tests<'a>>,
        account: &Rc<Account>,
    ) -> ResultParsing<Input<'a>> {
        let capture = Reading::new(console, capture, tests, account)?;
        Ok(Input { capture })
    }
}

impl Read for Input<'_> {
    ghost remaining = { λ input. None };

    fn read(&mut self, buf: &mut [u8]) -> io::Result<usize> {
        self.capture.read(buf)
    }
}
