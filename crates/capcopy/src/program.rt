//! The program over its arguments and its standard streams.

use capcopy_run::{Arguments, run_words};
use pcap_program::{Exit, Uninterrupted};
use std::io::{BufWriter, Write};

/// The size of the output buffer, in bytes.
const OUTPUT: usize = 65536;

/// Runs the program with its arguments. The output is flushed on every way out, and a failed flush is `Io`.
pub(crate) fn run(rt: &HostRuntime) -> Exit {
    let stdout = Uninterrupted::new(rt.stdout());
    let Ok(mut output) = BufWriter::with_capacity(rt.alloc(), OUTPUT, stdout) else {
        return Exit::Memory;
    };
    let exit = run_words(rt.alloc(), &Arguments::new(rt), rt.stdin(), &mut output);
    match output.flush() {
        Ok(()) => exit,
        Err(error) => Exit::from(error),
    }
}
