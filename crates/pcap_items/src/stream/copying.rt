//! Copies of items from a reader to a writer, for any format: one item at a time, or out of the reader's own buffer.

ghost use Rattle.std.specs.Prelude.{◌≡◌, ◌≤◌, ◌<◌, ◌+◌, ◌^◌, List, ℕ, [], length, take, false, IsTrue, IfOk, OnOk};
ghost use Rattle.std.specs.Result.{result_err};
ghost use Rattle.pcap_items.specs.Copying.{NothingCopied, IsWriting, CopiesBehind, Sends, Steps};
ghost use Rattle.pcap_items.specs.Format.{Format, IsLawful};
ghost use Rattle.pcap_items.specs.Held.{held_bytes};

use crate::stream::Held;
use pcap_core::{PcapError, ResultParsing};
use std::alloc::Global;
use std::io::{BufRead, Read, Write};

/// The progress of a copy: the number of items, and whether a read or a write failed.
#[derive(Drop)]
pub struct Tally {
    /// The number of whole items that were written.
    pub items: u64,
    /// Whether a read failed.
    pub read_failed: bool,
    /// Whether a write failed.
    pub write_failed: bool,
}

impl Tally {
    /// Returns the tally of a copy that has copied nothing.
    pub fn none() -> Tally
        ensures { NothingCopied result }
    {
        Tally {
            items: 0,
            read_failed: false,
            write_failed: false,
        }
    }
}

/// The part of a buffer that was written.
#[derive(Drop)]
pub struct Sent {
    /// The number of whole items.
    pub items: u64,
    /// The number of bytes of these items, and of the item in which a write failed.
    pub used: usize,
    /// The error of the write that failed, if one did.
    pub fault: Option<PcapError>,
}

/// The items ahead of a copy, and how each of them is written.
pub trait Ahead {
    /// The state between two items.
    type Place;

    ghost State: { Type 0 };

    ghost Value: { Type 0 };

    ghost stands: { Self → Type 0 };

    ghost format: { Self → Format State Value };

    ghost written: { Self → List Value → List ℕ → List ℕ };

    ghost state: { Self.Place → State };

    /// Copies the next item, which is held meanwhile. Returns whether there was an item.
    fn copy_next<R: Read, W: Write>(
        &self,
        alloc: Global,
        place: &mut Self::Place,
        reader: &mut R,
        writer: &mut W,
        tally: &mut Tally,
        held: &mut Held,
    ) -> ResultParsing<bool>
        requires stands { stands self.now }
        requires countable { tally.old.items + 1 < 2 ^ 64 }
        requires no_read_failed { tally.old.read_failed ≡ false }
        requires no_write_failed { tally.old.write_failed ≡ false }
        requires between { held_bytes held.old ≡ [] }
        ensures steps { Steps (format self.now) (written self.now) (state place.old) (state place.new) (R.remaining reader.old)
            (R.remaining reader.new) (W.contents writer.old) (W.contents writer.new) tally.old.items (tally.old.items + 1) tally.new result }
        ensures counts { IfOk result (λ is_copied. IsTrue is_copied → tally.new.items ≡ tally.old.items + 1) }
        ensures between { OnOk result (held_bytes held.new ≡ []) };
}

/// Items ahead of a copy that can also be written out of the reader's buffer.
pub trait AheadShown: Ahead {
    /// Writes at most `most` whole items at the front of a buffer, all of which leave the state unchanged.
    fn put_shown<W: Write>(
        &self,
        place: &Self::Place,
        writer: &mut W,
        has_failed: &mut bool,
        shown: &[u8],
        most: u64,
    ) -> Sent
        requires stands { Self.stands self.now }
        ensures within { result.used ≤ length shown.now }
        ensures sends { Sends (Self.format self.now) (Self.written self.now) (Self.state place.now)
            (take result.used shown.now) (W.contents writer.old) (W.contents writer.new) most result.items has_failed.old has_failed.new result.fault };
}

/// Copies items until `most` are copied or the reader is at its end. It writes each item before it reads the next one.
///
/// The errors are those of `copy_next`.
pub fn copy_items<A: Ahead, R: Read, W: Write>(
    alloc: Global,
    ahead: &A,
    place: &mut A::Place,
    reader: &mut R,
    writer: &mut W,
    most: u64,
    tally: &mut Tally,
    held: &mut Held,
) -> ResultParsing<()>
    requires lawful { IsLawful (A.format ahead.now) }
    requires writing { IsWriting (A.written ahead.now) }
    requires stands { A.stands ahead.now }
    requires new { NothingCopied tally.old }
    requires between { held_bytes held.old ≡ [] }
    ensures { CopiesBehind (A.format ahead.now) (A.written ahead.now)
        (A.state place.old) (R.remaining reader.old) (R.remaining reader.new) (W.contents writer.old) (W.contents writer.new) most
        tally.new.items (result_err result) tally.new.read_failed tally.new.write_failed }
{
    while tally.items < most {
        if !ahead.copy_next(alloc, place, reader, writer, tally, held)? {
            return Ok(());
        }
    }
    Ok(())
}

/// Copies items until `most` are copied or the reader is at its end: the whole items of a buffer, and then the one that
/// follows them.
///
/// The errors are those of `copy_next`, and `IoError` if the buffer can't be filled.
pub fn copy_buffers<A: AheadShown, R: BufRead, W: Write>(
    alloc: Global,
    ahead: &A,
    place: &mut A::Place,
    reader: &mut R,
    writer: &mut W,
    most: u64,
    tally: &mut Tally,
    held: &mut Held,
) -> ResultParsing<()>
    requires lawful { IsLawful (A.format ahead.now) }
    requires writing { IsWriting (A.written ahead.now) }
    requires stands { A.stands ahead.now }
    requires new { NothingCopied tally.old }
    requires between { held_bytes held.old ≡ [] }
    ensures { CopiesBehind (A.format ahead.now) (A.written ahead.now)
        (A.state place.old) (R.remaining reader.old) (R.remaining reader.new) (W.contents writer.old) (W.contents writer.new) most
        tally.new.items (result_err result) tally.new.read_failed tally.new.write_failed }
{
    while tally.items < most {
        if !copy_shown(ahead, place, reader, writer, most, tally)? {
            return Ok(());
        }
        if tally.items == most {
            return Ok(());
        }
        if !ahead.copy_next(alloc, place, reader, writer, tally, held)? {
            return Ok(());
        }
    }
    Ok(())
}

// Copies the whole items at the front of the reader's buffer until `most` are copied. Returns whether the buffer had any
// bytes.
fn copy_shown<A: AheadShown, R: BufRead, W: Write>(
    ahead: &A,
    place: &A::Place,
    reader: &mut R,
    writer: &mut W,
    most: u64,
    tally: &mut Tally,
) -> ResultParsing<bool>
    requires stands { A.stands ahead.now }
    requires writing { IsWriting (A.written ahead.now) }
    requires fewer { tally.old.items < most }
    requires no_read_failed { tally.old.read_failed ≡ false }
    requires no_write_failed { tally.old.write_failed ≡ false }
    ensures { Steps (A.format ahead.now) (A.written ahead.now) (A.state place.now) (A.state place.now)
        (R.remaining reader.old) (R.remaining reader.new) (W.contents writer.old) (W.contents writer.new) tally.old.items most tally.new result }
{
    let shown = match reader.fill_buf() {
        Ok(shown) => shown,
        Err(e) => {
            tally.read_failed = true;
            return Err(PcapError::IoError(e));
        }
    };
    if shown.is_empty() {
        return Ok(false);
    }
    let room = most - tally.items;
    let Sent { items, used, fault } = ahead.put_shown(
        place,
        writer,
        &mut tally.write_failed,
        shown,
        room,
    );
    reader.consume(used);
    tally.items += items;
    match fault {
        None => Ok(true),
        Some(error) => Err(error),
    }
}
