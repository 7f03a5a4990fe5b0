//! The results of checking a capture leniently.

ghost use Rattle.std.specs.Prelude.{◌≡◌};
ghost use Rattle.pcapfile_as_is.specs.CheckedAsIs.{line_as_is, status_as_is};

use pcapfile_run::Checked;
use std::fmt;

/// The result of checking a capture leniently.
#[derive(Debug, Drop)]
pub struct CheckedAsIs {
    /// The number of its packets or blocks, and the reason why no more follow.
    pub checked: Checked,
    /// The number of packets or blocks with a flaw.
    pub flawed: u64,
    /// The number of bytes between them that are left out.
    pub left_out: u64,
}

impl CheckedAsIs {
    /// Returns the exit status of a process that checked this capture.
    pub fn status(&self) -> u8
        ensures { result ≡ status_as_is self.now }
    {
        let is_sound = self.flawed == 0 && self.left_out == 0;
        let status = if is_sound { 0 } else { 1 };
        self.checked.status().max(status)
    }
}

/// Writes a line without a newline: that of the check, the number of items with flaws, and the number of bytes left out, if any.
impl fmt::Display for CheckedAsIs {
    ghost output = { line_as_is };

    fn fmt<W: fmt::Write>(&self, f: &mut fmt::Formatter<W>) -> fmt::Result {
        let checked = &self.checked;
        let (flawed, left_out) = (self.flawed, self.left_out);
        if left_out == 0 {
            return write!(f, "{checked}; {flawed} with flaws");
        }
        write!(
            f,
            "{checked}; {flawed} with flaws, {left_out} bytes left out"
        )
    }
}
