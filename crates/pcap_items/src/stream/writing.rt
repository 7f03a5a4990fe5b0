//! Functions that write all bytes, or stop at a call that fails.

ghost use Rattle.std.specs.Prelude.{◌≡◌, true, MatchResult};
ghost use Rattle.pcap_core.specs.Errors.{IsIo};
ghost use Rattle.pcap_items.specs.Writing.{WritesAll, WritesOrTears};

use pcap_core::{PcapError, ResultParsing};
use std::io;
use std::io::{ErrorKind, Write};

/// A failed write: the number of bytes that were written before it, and the error.
#[derive(Debug, Drop)]
pub struct Torn {
    /// The number of bytes that were written, fewer than all of them.
    pub gone: usize,
    /// The `IoError`.
    pub error: PcapError,
}

/// Writes all of the bytes. If a call fails or takes none of the bytes, it stops and returns `IoError`.
pub fn put<W: Write>(writer: &mut W, has_failed: &mut bool, bytes: &[u8]) -> ResultParsing<()>
    ensures out { WritesAll (W.contents writer.old) (W.contents writer.new) bytes.now result }
    ensures told { MatchResult result (λ _. has_failed.new ≡ has_failed.old) (λ _. has_failed.new ≡ true) }
{
    match put_or_tear(writer, has_failed, bytes) {
        Ok(()) => Ok(()),
        Err(torn) => Err(torn.error),
    }
}

/// Writes all of the bytes. If a call fails or takes none of the bytes, it stops and returns the number of bytes written and
/// the `IoError`.
#[inline(always)]
pub fn put_or_tear<W: Write>(
    writer: &mut W,
    has_failed: &mut bool,
    bytes: &[u8],
) -> Result<(), Torn>
    ensures out { WritesOrTears (W.contents writer.old) (W.contents writer.new) bytes.now result }
    ensures told { MatchResult result (λ _. has_failed.new ≡ has_failed.old) (λ _. has_failed.new ≡ true) }
{
    let mut rest = bytes;
    while !rest.is_empty() {
        match writer.write(rest) {
            Ok(0) => {
                *has_failed = true;
                let gone = bytes.len() - rest.len();
                return Err(Torn {
                    gone,
                    error: took_nothing(),
                });
            }
            Ok(n) => rest = &rest[n..],
            Err(e) => {
                *has_failed = true;
                let gone = bytes.len() - rest.len();
                return Err(Torn {
                    gone,
                    error: PcapError::IoError(e),
                });
            }
        }
    }
    Ok(())
}

fn took_nothing() -> PcapError
    ensures { IsIo result }
{
    PcapError::IoError(io::Error::new(ErrorKind::WriteZero, "the writer took nothing"))
}
