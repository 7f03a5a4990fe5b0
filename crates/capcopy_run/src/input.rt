//! Skipping bytes of the input.

ghost use Rattle.std.specs.Prelude.{OnOk, OnErr};
ghost use Rattle.pcap_items.specs.Streams.{TakesFewer};
ghost use Rattle.capcopy_run.specs.Skipping.{TakesExactly};

use std::io;
use std::io::{BufRead, ErrorKind};

/// Skips exactly `n` bytes of the input. Returns the errors of the input, and `UnexpectedEof` if the input ends before.
pub fn skip_exact<R: BufRead>(input: &mut R, n: usize) -> io::Result<()>
    ensures skipped { OnOk result (TakesExactly n (R.remaining input.old) (R.remaining input.new)) }
    ensures part { OnErr result (TakesFewer n (R.remaining input.old) (R.remaining input.new)) }
{
    let mut missing = n;
    while missing > 0 {
        let shown = input.fill_buf()?;
        if shown.is_empty() {
            let message = "the input ended early";
            return Err(io::Error::new(ErrorKind::UnexpectedEof, message));
        }
        let used = shown.len().min(missing);
        input.consume(used);
        missing -= used;
    }
    Ok(())
}
