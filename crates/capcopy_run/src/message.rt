//! The messages of runs of the program.

ghost use Rattle.std.specs.Prelude.{Some};
ghost use Rattle.capcopy_run.specs.Exits.{message_of};

use pcap_program::Exit;
use std::fmt;

/// The message of a run with this exit for standard error, without a newline. `Done` has no message.
#[derive(Clone, Copy)]
pub struct Message<'a>(pub &'a Exit);

impl fmt::Display for Message<'_> {
    ghost output = { λ message. Some (message_of message.0.now) };

    fn fmt<W: fmt::Write>(&self, f: &mut fmt::Formatter<W>) -> fmt::Result {
        match self.0 {
            Exit::Done => Ok(()),
            Exit::Refused(error) => write!(f, "capcopy: {error}"),
            Exit::Most => f.write_str("capcopy: limit reached"),
            Exit::Usage => {
                f.write_str("usage: capcopy list | copy [big|little micro|nano] | blocks")
            }
            Exit::Io(_) => f.write_str("capcopy: input or output failed or ended early"),
            Exit::Memory => f.write_str("capcopy: out of memory"),
        }
    }
}
