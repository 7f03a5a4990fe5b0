//! Functions that read bytes from a stream: some of them, or exactly as many as the caller requests.

ghost use Rattle.std.specs.Prelude.{◌≡◌, ◌<◌, ◌≤◌, ◌+◌, take, drop, min, max, length, IfOk, IfErr, OnOk, OnErr};
ghost use Rattle.std.specs.Io.KnownBytes.{Keeps, Consumes, IsAtEnd};
ghost use Rattle.pcap_core.specs.Errors.{IsIo};
ghost use Rattle.pcap_items.specs.Held.{held_bytes, room_of};
ghost use Rattle.pcap_items.specs.Streams.{Adds, AddsFewer, TellsCause, FillGives, HasCauseToFill, TakesFewer, HasCauseToTake, FillsArray};

use crate::stream::Held;
use pcap_core::{PcapError, ResultParsing};
use std::alloc::Global;
use std::io;
use std::io::{ErrorKind, Read};

/// The largest number of bytes for which one read has room.
const MOST_AT_ONCE: usize = 65536;

// Appends the bytes of one read to the held bytes. It takes the parts of a `Fill`, so that it also fills from a borrowed
// stream.
#[inline(always)]
pub(crate) fn read_once<T: Read>(
    stream: &mut T,
    has_failed: &mut bool,
    held: &mut Held,
    n: usize,
) -> ResultParsing<usize>
    requires { 0 < n }
    ensures added { IfOk result (Adds (held_bytes held.old) (held_bytes held.new) (T.remaining stream.old) (T.remaining stream.new)) }
    ensures most { IfOk result (λ k. k ≤ min n 65536) }
    ensures end { IfOk result (λ k. k ≡ 0 → IsAtEnd (T.remaining stream.new)) }
    ensures told { OnOk result (has_failed.new ≡ has_failed.old) }
    ensures held { OnErr result (held_bytes held.new ≡ held_bytes held.old) }
    ensures kept { OnErr result (Keeps (T.remaining stream.old) (T.remaining stream.new)) }
    ensures cause { IfErr result (TellsCause has_failed.old has_failed.new) }
    ensures room { room_of held.new ≤ max (room_of held.old) (length (held_bytes held.old) + min n 65536) }
{
    let room = n.min(MOST_AT_ONCE);
    held.make_room(room)?;
    match read_at(stream, held.room.as_mut_slice(), held.len, room) {
        Ok(taken) => {
            held.len += taken;
            Ok(taken)
        }
        Err(e) => {
            *has_failed = true;
            Err(PcapError::IoError(e))
        }
    }
}

// Appends n bytes to the held bytes. Returns false if nothing was held and the stream was at its end.
#[inline(always)]
pub(crate) fn read_exactly<T: Read>(
    stream: &mut T,
    has_failed: &mut bool,
    held: &mut Held,
    n: usize,
) -> ResultParsing<bool>
    requires { 0 < n }
    ensures added { IfOk result (FillGives n (held_bytes held.old) (held_bytes held.new) (T.remaining stream.old) (T.remaining stream.new)) }
    ensures told { OnOk result (has_failed.new ≡ has_failed.old) }
    ensures part { OnErr result (AddsFewer n (held_bytes held.old) (held_bytes held.new) (T.remaining stream.old) (T.remaining stream.new)) }
    ensures cause { IfErr result (HasCauseToFill n (held_bytes held.old) (T.remaining stream.old) has_failed.old has_failed.new) }
    ensures room { room_of held.new ≤ max (room_of held.old) (length (held_bytes held.old) + n) }
    ensures ahead { room_of held.new ≤ max (room_of held.old) (length (held_bytes held.new) + 65536) }
{
    let mut missing = n;
    while missing > 0 {
        let taken = read_once(stream, has_failed, held, missing)?;
        if taken == 0 {
            if held.as_slice().is_empty() {
                return Ok(false);
            }
            return Err(ended_early());
        }
        missing -= taken;
    }
    Ok(true)
}

/// Takes `n` bytes from a stream into a new vector, whose room grows with the bytes that arrive.
///
/// Returns `OutOfMemory` if there is no room for them, and `IoError` if a read failed or the stream ended early.
#[inline(always)]
pub fn take_bytes<T: Read>(
    alloc: Global,
    stream: &mut T,
    has_failed: &mut bool,
    n: usize,
) -> ResultParsing<Vec<u8>>
    ensures bytes { IfOk result (λ bytes. Consumes (T.remaining stream.old) (T.remaining stream.new) bytes.items) }
    ensures count { IfOk result (λ bytes. length bytes.items ≡ n) }
    ensures told { OnOk result (has_failed.new ≡ has_failed.old) }
    ensures part { OnErr result (TakesFewer n (T.remaining stream.old) (T.remaining stream.new)) }
    ensures cause { IfErr result (HasCauseToTake n (T.remaining stream.old) has_failed.old has_failed.new) }
{
    if n == 0 {
        return Ok(Vec::new(alloc));
    }
    let mut held = Held::with_room(alloc, n.min(MOST_AT_ONCE))?;
    if !read_exactly(stream, has_failed, &mut held, n)? {
        return Err(ended_early());
    }
    Ok(held.into_vec())
}

/// Fills an array from a stream, without allocating memory. Returns `IoError` if a read failed or the stream ended early.
pub fn fill_array<T: Read>(
    stream: &mut T,
    has_failed: &mut bool,
    array: &mut [u8],
) -> ResultParsing<()>
    ensures { FillsArray (T.remaining stream.old) (T.remaining stream.new) has_failed.old has_failed.new array.new result }
{
    let mut at = 0;
    while at < array.len() {
        let room = array.len() - at;
        match read_at(stream, array, at, room) {
            Ok(0) => return Err(ended_early()),
            Ok(n) => at += n,
            Err(e) => {
                *has_failed = true;
                return Err(PcapError::IoError(e));
            }
        }
    }
    Ok(())
}

// Makes one read into `room` bytes from the index `at` on.
#[inline(always)]
fn read_at<T: Read>(stream: &mut T, bytes: &mut [u8], at: usize, room: usize) -> io::Result<usize>
    requires some { 0 < room }
    requires within { at + room ≤ length bytes.old }
    ensures front { take at bytes.new ≡ take at bytes.old }
    ensures fits { IfOk result (λ n. n ≤ room) }
    ensures came { IfOk result (λ n. Consumes (T.remaining stream.old) (T.remaining stream.new) (take n (drop at bytes.new))) }
    ensures end { IfOk result (λ n. n ≡ 0 → IsAtEnd (T.remaining stream.new)) }
    ensures kept { OnErr result (Keeps (T.remaining stream.old) (T.remaining stream.new)) }
{
    stream.read(&mut bytes[at..at + room])
}

fn ended_early() -> PcapError
    ensures { IsIo result }
{
    PcapError::IoError(io::Error::new(ErrorKind::UnexpectedEof, "the stream ended early"))
}
