//! Writing lines to the output.

ghost use Rattle.std.specs.Prelude.{◌≡◌, IfErr};
ghost use Rattle.pcap_program.specs.Exits.{IsMemoryExit};
ghost use Rattle.pcap_program.specs.Lines.{WritesLine};

use crate::Exit;
use std::io;
use std::io::{ErrorKind, Write};

/// Writes a whole line. Returns `Io` if a write fails or accepts no bytes; the line is then written up to there.
pub fn put_line<W: Write>(output: &mut W, line: &[u8]) -> Result<(), Exit>
    ensures writes { WritesLine (λ bytes. bytes ≡ line.now) (W.contents output.old) (W.contents output.new) result }
    ensures no_memory { IfErr result (λ exit. IsMemoryExit exit → ⊥) }
{
    let mut rest = line;
    while !rest.is_empty() {
        match output.write(rest) {
            Ok(0) => {
                let message = "the output took nothing";
                return Err(Exit::from(io::Error::new(ErrorKind::WriteZero, message)));
            }
            Ok(n) => rest = &rest[n..],
            Err(error) => return Err(Exit::from(error)),
        }
    }
    Ok(())
}
