//! Filling a buffer with one item, for every format whose items have a head.

ghost use Rattle.std.specs.Prelude.{◌≡◌, ◌≤◌, ◌+◌, max, ℕ, List, [], false, length, OnOk, OnErr};
ghost use Rattle.std.specs.Io.KnownBytes.{Consumes};
ghost use Rattle.pcap_items.specs.Held.{held_bytes, room_of};
ghost use Rattle.pcap_items.specs.Format.{Format, IsLawful};
ghost use Rattle.pcap_items.specs.Filling.{StatesRest, FillsHead, FillsHeaded, TakesHeaded};

use crate::stream::{Held, read_exactly, take_bytes};
use pcap_core::ResultParsing;
use std::alloc::Global;
use std::io::Read;

/// A format whose items begin with a head, in a given state. The state gives the length of a head, and the head states how
/// many bytes follow it.
pub trait HasHead {
    /// The form in which a head is read.
    type Head: Drop;

    ghost State: { Type 0 };

    ghost Value: { Type 0 };

    ghost format: { Self → Format State Value };

    ghost state: { Self → State };

    ghost knows: { Self → Self.Head → ℕ → List ℕ → Type 0 };

    /// Returns the length of a head in this state.
    fn head(&self) -> usize
        ensures { result ≡ (format self.now).head (state self.now) };

    /// Reads a head. Returns what these bytes are and how many bytes follow them, or the head's refusal.
    ///
    /// No error of this crate shows a format's own fault. If `Head` is a `Result`, a head with such a fault is its `Err`,
    /// which no byte follows. The functions that fill return it like any other head, and their caller converts it into an
    /// error of its own.
    fn stated(&self, bytes: &[u8]) -> ResultParsing<(Self::Head, usize)>
        requires { length bytes.now ≡ (format self.now).head (state self.now) }
        ensures { StatesRest ((format self.now).says (state self.now)) (knows self.now) bytes.now result };
}

/// Fills the held bytes with the next item: its head, and then as many bytes as the head states. Returns `None` exactly at
/// the end of the stream. Nothing is held before the call, nor after it returns `None`.
///
/// Returns the head's refusal if its bytes are refused, `OutOfMemory` if there is no room, and `IoError` if a read failed or
/// the stream ended early. Bytes that came before the error are held too.
#[inline(always)]
pub fn fill_item<H: HasHead, T: Read>(
    item: &H,
    stream: &mut T,
    has_failed: &mut bool,
    held: &mut Held,
) -> ResultParsing<Option<H::Head>>
    requires lawful { IsLawful (H.format item.now) }
    requires between { held_bytes held.old ≡ [] }
    requires unfailed { has_failed.old ≡ false }
    ensures fills { FillsHeaded ((H.format item.now).says (H.state item.now)) (H.knows item.now)
        ((H.format item.now).head (H.state item.now)) (T.remaining stream.old) (T.remaining stream.new) (held_bytes held.new) has_failed.new result }
    ensures part { OnErr result (Consumes (T.remaining stream.old) (T.remaining stream.new) (held_bytes held.new)) }
    ensures ahead { room_of held.new ≤ max (room_of held.old) (length (held_bytes held.new) + 65536) }
{
    let Some((head, rest)) = fill_head(item, stream, has_failed, held)? else {
        return Ok(None);
    };
    if rest > 0 {
        read_exactly(stream, has_failed, held, rest)?;
    }
    Ok(Some(head))
}

/// Takes the next item: its head, and a new vector of as many bytes as the head states, whose room grows with the bytes that
/// arrive. Returns `None` exactly at the end of the stream. Nothing is held before the call, nor after an `Ok`.
///
/// Returns the head's refusal if its bytes are refused, `OutOfMemory` if there is no room, and `IoError` if a read failed or
/// the stream ended early.
#[inline(always)]
pub fn take_item<H: HasHead, T: Read>(
    alloc: Global,
    item: &H,
    stream: &mut T,
    has_failed: &mut bool,
    held: &mut Held,
) -> ResultParsing<Option<(H::Head, Vec<u8>)>>
    requires lawful { IsLawful (H.format item.now) }
    requires between { held_bytes held.old ≡ [] }
    requires unfailed { has_failed.old ≡ false }
    ensures takes { TakesHeaded ((H.format item.now).says (H.state item.now)) (H.knows item.now)
        ((H.format item.now).head (H.state item.now)) (λ body. body.items) (T.remaining stream.old) (T.remaining stream.new) has_failed.new result }
    ensures between { OnOk result (held_bytes held.new ≡ []) }
    ensures room { room_of held.new ≤ max (room_of held.old) ((H.format item.now).head (H.state item.now)) }
{
    let Some((head, rest)) = fill_head(item, stream, has_failed, held)? else {
        return Ok(None);
    };
    held.clear();
    let body = take_bytes(alloc, stream, has_failed, rest)?;
    Ok(Some((head, body)))
}

// Fills the held bytes with the head of the next item, and returns how many bytes follow it.
#[inline(always)]
fn fill_head<H: HasHead, T: Read>(
    item: &H,
    stream: &mut T,
    has_failed: &mut bool,
    held: &mut Held,
) -> ResultParsing<Option<(H::Head, usize)>>
    requires lawful { IsLawful (H.format item.now) }
    requires between { held_bytes held.old ≡ [] }
    requires unfailed { has_failed.old ≡ false }
    ensures fills { FillsHead ((H.format item.now).says (H.state item.now)) (H.knows item.now)
        ((H.format item.now).head (H.state item.now)) (T.remaining stream.old) (T.remaining stream.new) (held_bytes held.new) has_failed.new result }
    ensures room { room_of held.new ≤ max (room_of held.old) ((H.format item.now).head (H.state item.now)) }
    ensures part { OnErr result (Consumes (T.remaining stream.old) (T.remaining stream.new) (held_bytes held.new)) }
    ensures ahead { room_of held.new ≤ max (room_of held.old) (length (held_bytes held.new) + 65536) }
{
    if !read_exactly(stream, has_failed, held, item.head())? {
        return Ok(None);
    }
    let stated = item.stated(held.as_slice())?;
    Ok(Some(stated))
}
