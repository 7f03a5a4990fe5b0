//! A walk over the items of a stream. The sink takes items that are whole in the stream's buffer from there; an item that the
//! buffer cuts off is held first.

ghost use Rattle.std.specs.Prelude.{◌≡◌, ◌≤◌, ◌<◌, ◌+◌, ℕ, List, Option, Result, [], Bool, length, take, true, false, IfOk, IfErr, IfSome};
ghost use Rattle.std.specs.Io.KnownBytes.{Keeps};
ghost use Rattle.pcap_items.specs.Format.{Format, IsLawful};
ghost use Rattle.pcap_walk.specs.Walks.{does_of, Serves, MeetsShown, TurnGives, EndsWalk, StandsInFront, HoldsNext};

use pcap_core::{PcapError, ResultParsing};
use std::io::{BufRead, Read, Write};

/// The cause for which a walk ended.
#[derive(Debug, Drop)]
pub enum Ended<E> {
    /// The walk reached the end of the stream.
    AtEnd,
    /// The sink has taken as many items as requested, or wants no more.
    AtMost,
    /// The bytes that follow are no item, a read failed, or memory ran out.
    Refused(PcapError),
    /// The sink stopped.
    Stopped(E),
}

/// The progress of a walk.
#[derive(Debug, Drop)]
pub struct Walked {
    /// How many items the sink has taken.
    pub items: u64,
    /// Whether a read failed.
    pub read_failed: bool,
}

/// An item at the front of bytes.
#[derive(Drop)]
pub struct Front<H> {
    /// The head of the item.
    pub head: H,
    /// The item's size in bytes.
    pub size: usize,
}

/// A walker over the items of a format, with the state between two items and the item that is held.
pub trait Walker {
    /// The type of an item's head, as the walker reads it.
    type Head: Drop;

    ghost Setting: { Type 0 };

    ghost State: { Type 0 };

    ghost Value: { Type 0 };

    ghost format: { Setting → Format State Value };

    ghost setting: { Self → Setting };

    ghost state: { Self → State };

    ghost value: { Self → Self.Head → List ℕ → Value };

    ghost held: { Self → List ℕ };

    /// Returns the item that is whole at the front of the bytes and leaves the state unchanged. None if the walker finds no such
    /// item.
    fn front(&self, bytes: &[u8]) -> Option<Front<Self::Head>>
        ensures { IfSome result (λ front. StandsInFront (format (setting self.now)) (value self.now) (state self.now) bytes.now front.head front.size) };

    /// Holds the next item, updates the state, and returns the item's head. None at the end of the input.
    fn hold_next<R: Read>(
        &mut self,
        input: &mut R,
        read_failed: &mut bool,
    ) -> ResultParsing<Option<Self::Head>>
        requires between { held self.old ≡ [] }
        requires unfailed { read_failed.old ≡ false }
        ensures same { setting self.new ≡ setting self.old }
        ensures holds { HoldsNext (format (setting self.old)) (value self.new) (state self.old) (state self.new)
            (R.remaining input.old) (R.remaining input.new) (held self.new) read_failed.new result };

    /// Returns the bytes that are held.
    fn held(&self) -> &[u8]
        ensures { result.now ≡ held self.now };

    /// Releases the bytes that are held.
    fn clear(&mut self)
        ensures held { held self.new ≡ [] }
        ensures same { setting self.new ≡ setting self.old }
        ensures state { state self.new ≡ state self.old };
}

/// A sink, which takes the items of a walk.
pub trait Sink<F, H> {
    /// The reason why the sink takes no more items.
    type Stop: Drop;

    ghost fits: { F → H → List ℕ → Type 0 };

    ghost gives: { ℕ → F → H → List ℕ → Self → Option (List ℕ) → Self → Option (List ℕ) → Result (Unit {0}) Self.Stop → Type 0 };

    ghost is_unready: { Self.Stop → Type 0 };

    ghost wants: { ℕ → Self → Bool };

    /// Returns whether the sink wants an item with this index.
    fn wants(&self, index: u64) -> bool
        ensures { result ≡ wants index self.now };

    /// Takes the item with this head, text and index.
    fn item<W: Write>(
        &mut self,
        output: &mut W,
        index: u64,
        walker: &F,
        head: &H,
        text: &[u8],
    ) -> Result<(), Self::Stop>
        requires { fits walker.now head.now text.now }
        ensures { gives index walker.now head.now text.now self.old (W.contents output.old) self.new (W.contents output.new) result };

    /// Flushes the sink's output before the input may wait.
    fn wait<W: Write>(&self, output: &mut W) -> Result<(), Self::Stop>
        ensures kept { Keeps (W.contents output.old) (W.contents output.new) }
        ensures stops { IfErr result is_unready };
}

// The part of a buffer's bytes that the walk met.
#[derive(Drop)]
struct Shown<E> {
    // How many of the bytes it used.
    used: usize,
    // Why the sink stopped, if it did.
    stop: Option<E>,
}

// Gives the sink the items that are whole at the front of the bytes and leave the state unchanged.
#[inline(always)]
fn walk_shown<F: Walker, W: Write, S: Sink<F, F::Head>>(
    walker: &F,
    shown: &[u8],
    output: &mut W,
    sink: &mut S,
    items: &mut u64,
    most: u64,
) -> Shown<S::Stop>
    requires serves { Serves F.format F.setting F.value S.fits }
    requires lawful { IsLawful (F.format (F.setting walker.now)) }
    requires few { items.old ≤ most }
    ensures within { result.used ≤ length shown.now }
    ensures meets { MeetsShown (F.format (F.setting walker.now)) (does_of F.value S.wants S.gives) (F.state walker.now) (take result.used shown.now)
        most items.old items.new sink.old sink.new (W.contents output.old) (W.contents output.new) result.stop }
{
    let mut rest = shown;
    while *items < most {
        if !sink.wants(*items + 1) {
            break;
        }
        let Some(Front { head, size }) = walker.front(rest) else {
            break;
        };
        let (text, after) = rest.split_at(size);
        rest = after;
        if let Err(stop) = sink.item(output, *items + 1, walker, &head, text) {
            return Shown {
                used: shown.len() - rest.len(),
                stop: Some(stop),
            };
        }
        *items += 1;
    }
    Shown {
        used: shown.len() - rest.len(),
        stop: None,
    }
}

// Gives the sink the item that is held.
#[inline(always)]
fn give_held<F: Walker, W: Write, S: Sink<F, F::Head>>(
    walker: &F,
    output: &mut W,
    sink: &mut S,
    index: u64,
    head: F::Head,
) -> Result<(), S::Stop>
    requires { S.fits walker.now head (F.held walker.now) }
    ensures { S.gives index walker.now head (F.held walker.now) sink.old (W.contents output.old) sink.new (W.contents output.new) result }
{
    sink.item(output, index, walker, &head, walker.held())
}

// Holds the next item and gives it to the sink.
fn walk_torn<F: Walker, R: BufRead, W: Write, S: Sink<F, F::Head>>(
    walker: &mut F,
    input: &mut R,
    output: &mut W,
    sink: &mut S,
    walked: &mut Walked,
    most: u64,
) -> Option<Ended<S::Stop>>
    requires serves { Serves F.format F.setting F.value S.fits }
    requires lawful { IsLawful (F.format (F.setting walker.old)) }
    requires between { F.held walker.old ≡ [] }
    requires unfailed { walked.old.read_failed ≡ false }
    requires fewer { walked.old.items < most }
    requires wants { S.wants (walked.old.items + 1) sink.old ≡ true }
    ensures between { result ≡ None → F.held walker.new ≡ [] }
    ensures same { F.setting walker.new ≡ F.setting walker.old }
    ensures turn { TurnGives (F.format (F.setting walker.old)) (does_of F.value S.wants S.gives) S.is_unready S.wants (F.state walker.old) (F.state walker.new)
        (R.remaining input.old) (R.remaining input.new) walked.new.read_failed most walked.old.items walked.new.items
        sink.old sink.new (W.contents output.old) (W.contents output.new) result }
{
    let head = match walker.hold_next(input, &mut walked.read_failed) {
        Ok(Some(head)) => head,
        Ok(None) => return Some(Ended::AtEnd),
        Err(error) => return Some(Ended::Refused(error)),
    };
    let given = give_held(walker, output, sink, walked.items + 1, head);
    walker.clear();
    match given {
        Ok(()) => {
            walked.items += 1;
            None
        }
        Err(stop) => Some(Ended::Stopped(stop)),
    }
}

// Gives the sink the items that are whole in the input's buffer, or else the one that the buffer cuts off. The sink flushes its
// output before the input waits.
fn walk_turn<F: Walker, R: BufRead, W: Write, S: Sink<F, F::Head>>(
    walker: &mut F,
    input: &mut R,
    output: &mut W,
    sink: &mut S,
    walked: &mut Walked,
    most: u64,
) -> Option<Ended<S::Stop>>
    requires serves { Serves F.format F.setting F.value S.fits }
    requires lawful { IsLawful (F.format (F.setting walker.old)) }
    requires between { F.held walker.old ≡ [] }
    requires unfailed { walked.old.read_failed ≡ false }
    requires fewer { walked.old.items < most }
    requires wants { S.wants (walked.old.items + 1) sink.old ≡ true }
    ensures between { result ≡ None → F.held walker.new ≡ [] }
    ensures same { F.setting walker.new ≡ F.setting walker.old }
    ensures turn { TurnGives (F.format (F.setting walker.old)) (does_of F.value S.wants S.gives) S.is_unready S.wants (F.state walker.old) (F.state walker.new)
        (R.remaining input.old) (R.remaining input.new) walked.new.read_failed most walked.old.items walked.new.items
        sink.old sink.new (W.contents output.old) (W.contents output.new) result }
{
    if let Err(stop) = sink.wait(output) {
        return Some(Ended::Stopped(stop));
    }
    let shown = match input.fill_buf() {
        Ok(shown) => shown,
        Err(error) => {
            walked.read_failed = true;
            return Some(Ended::Refused(PcapError::IoError(error)));
        }
    };
    if shown.is_empty() {
        return Some(Ended::AtEnd);
    }
    let before = walked.items;
    let Shown { used, stop } = walk_shown(walker, shown, output, sink, &mut walked.items, most);
    input.consume(used);
    if let Some(stop) = stop {
        return Some(Ended::Stopped(stop));
    }
    if walked.items > before {
        return None;
    }
    walk_torn(walker, input, output, sink, walked, most)
}

/// Walks over the items of an input and gives each to a sink, until the sink has taken `most` items or wants no more, or the walk
/// ends early.
pub fn walk<F: Walker, R: BufRead, W: Write, S: Sink<F, F::Head>>(
    walker: &mut F,
    input: &mut R,
    output: &mut W,
    sink: &mut S,
    most: u64,
    walked: &mut Walked,
) -> Ended<S::Stop>
    requires serves { Serves F.format F.setting F.value S.fits }
    requires lawful { IsLawful (F.format (F.setting walker.old)) }
    requires between { F.held walker.old ≡ [] }
    requires unfailed { walked.old.read_failed ≡ false }
    requires few { walked.old.items ≤ most }
    ensures { EndsWalk (F.format (F.setting walker.old)) (does_of F.value S.wants S.gives) S.is_unready S.wants (F.state walker.old)
        (R.remaining input.old) (R.remaining input.new) walked.new.read_failed most walked.old.items walked.new.items
        sink.old sink.new (W.contents output.old) (W.contents output.new) result }
{
    while walked.items < most {
        if !sink.wants(walked.items + 1) {
            return Ended::AtMost;
        }
        if let Some(ended) = walk_turn(walker, input, output, sink, walked, most) {
            return ended;
        }
    }
    Ended::AtMost
}
