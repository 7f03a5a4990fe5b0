//! Streams that repeat interrupted reads and writes.

ghost use Rattle.std.specs.Prelude.{◌≡◌, ◌≢◌, IfErr};
ghost use Rattle.std.specs.Io.{ReadsAtMost, WritesAtMost};
ghost use Rattle.std.specs.Io.KnownBytes.{ReadConsumes, WriteAppends, Keeps};
ghost use Rattle.std.specs.IoError.{error_kind};
ghost use Rattle.pcap_program.specs.Uninterrupted.{stream_of};

use std::io;
use std::io::{ErrorKind, Read, Write};

/// A stream that repeats a read or write when a signal interrupts it.
#[derive(Drop)]
pub struct Uninterrupted<R> {
    stream: R,
}

impl<R> Uninterrupted<R> {
    /// Returns a stream over this one that repeats each read and write until it isn't interrupted.
    pub fn new(stream: R) -> Uninterrupted<R>
        ensures { stream_of result ≡ stream }
    {
        Uninterrupted { stream }
    }
}

impl<R: Read> Read for Uninterrupted<R> {
    ghost remaining = { λ t. R.remaining (stream_of t) };

    fn read(&mut self, buf: &mut [u8]) -> io::Result<usize>
        ensures bound { ReadsAtMost result buf.new }
        ensures bytes { ReadConsumes (R.remaining (stream_of self.old)) (R.remaining (stream_of self.new)) result buf.new }
        ensures repeated { IfErr result (λ e. error_kind e ≢ ErrorKind.Interrupted) }
    {
        read_through(&mut self.stream, buf)
    }
}

impl<W: Write> Write for Uninterrupted<W> {
    ghost contents = { λ t. W.contents (stream_of t) };

    fn write(&mut self, buf: &[u8]) -> io::Result<usize>
        ensures bound { WritesAtMost result buf.now }
        ensures bytes { WriteAppends (W.contents (stream_of self.old)) (W.contents (stream_of self.new)) result buf.now }
        ensures repeated { IfErr result (λ e. error_kind e ≢ ErrorKind.Interrupted) }
    {
        write_through(&mut self.stream, buf)
    }

    fn flush(&mut self) -> io::Result<()>
        ensures { Keeps (W.contents (stream_of self.old)) (W.contents (stream_of self.new)) }
    {
        self.stream.flush()
    }
}

fn read_through<R: Read>(stream: &mut R, buf: &mut [u8]) -> io::Result<usize>
    ensures bound { ReadsAtMost result buf.new }
    ensures bytes { ReadConsumes (R.remaining stream.old) (R.remaining stream.new) result buf.new }
    ensures repeated { IfErr result (λ e. error_kind e ≢ ErrorKind.Interrupted) }
{
    for _turn in 0..u64::MAX {
        match stream.read(buf) {
            Ok(n) => return Ok(n),
            Err(error) => {
                if error.kind() != ErrorKind::Interrupted {
                    return Err(error);
                }
            }
        }
    }
    Err(io::Error::new(ErrorKind::TimedOut, "each read was interrupted"))
}

fn write_through<W: Write>(stream: &mut W, buf: &[u8]) -> io::Result<usize>
    ensures bound { WritesAtMost result buf.now }
    ensures bytes { WriteAppends (W.contents stream.old) (W.contents stream.new) result buf.now }
    ensures repeated { IfErr result (λ e. error_kind e ≢ ErrorKind.Interrupted) }
{
    for _turn in 0..u64::MAX {
        match stream.write(buf) {
            Ok(n) => return Ok(n),
            Err(failed) => {
                if failed.kind() != ErrorKind::Interrupted {
                    return Err(failed);
                }
            }
        }
    }
    Err(io::Error::new(ErrorKind::TimedOut, "each write was interrupted"))
}
