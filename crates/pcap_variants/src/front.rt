//! One step from the front of the bytes that are held.

ghost use Rattle.std.specs.Prelude.{◌≤◌, ◌<◌, ◌+◌, ◌↔◌, IsTrue, drop, length, take};
ghost use Rattle.pcap_variants.specs.Fronts.{Looks, Skips, Stores};
ghost use Rattle.pcap_variants.specs.Variants.{CanBeHead, further_len};

use crate::heads::{HEAD, can_be_head, included, is_row};
use crate::variant::Variant;

/// The number of packets in a row that show where packets go on.
const IN_A_ROW: usize = 2;

/// The most bytes of two packets with heads of a variant.
const ROW: usize = 524_344;

/// The number of bytes that are searched at once.
const SEARCHED: usize = 1_048_576;

/// A step from the front of the bytes that are held.
#[derive(Clone, Copy)]
pub(crate) struct Step {
    /// The number of bytes that are written.
    pub(crate) written: usize,
    /// The number of bytes that are passed.
    pub(crate) passed: usize,
    /// The number of bytes before the next head.
    pub(crate) left: usize,
}

// Returns the first place from `from` on at which packets follow each other, or `sure` if there is none before it.
fn next_place(variant: &Variant, slice: &[u8], from: usize, sure: usize) -> usize
    requires bounds { from ≤ sure }
    requires within { sure ≤ length slice.now }
    ensures first { from ≤ result }
    ensures last { result ≤ sure }
{
    let further = variant.further.len();
    for at in from..sure {
        if is_row(variant.order, further, &slice[at..], IN_A_ROW) {
            return at;
        }
    }
    sure
}

// Returns the step over corrupt bytes, up to the place where packets go on. `None` if more bytes are needed to find it.
fn skip(variant: &Variant, slice: &[u8], is_all: bool) -> Option<Step>
    requires { 0 < length slice.now }
    ensures { Skips is_all slice.now result }
{
    let len = slice.len();
    if !is_all && len < SEARCHED {
        return None;
    }
    let sure = if is_all { len } else { len - ROW };
    let passed = next_place(variant, slice, 1, sure);
    Some(Step {
        written: passed,
        passed,
        left: 0,
    })
}

// Returns whether a head can be at this place.
fn is_head_at(variant: &Variant, slice: &[u8], place: usize) -> bool
    requires { place + 16 ≤ length slice.now }
    ensures { IsTrue result ↔ CanBeHead variant.now.order (take 16 (drop place slice.now)) }
{
    let behind = &slice[place..];
    can_be_head(variant.order, &behind[..HEAD])
}

// Returns the number of data bytes of the packet at the front, behind whose stated end there is no packet: those before the place where
// packets go on, if that is before the stated end, and otherwise all.
fn shortened(variant: &Variant, slice: &[u8], begin: usize, end: usize) -> usize
    requires from { begin ≤ end }
    requires within { begin ≤ length slice.now }
{
    let sure = end.min(slice.len());
    let place = next_place(variant, slice, begin, sure);
    if place < sure {
        place - begin
    } else {
        end - begin
    }
}

// Returns the number of data bytes of the packet at the front: its stored length, unless what follows is no head, and packets go on
// before. `None` if more bytes are needed.
fn stored(variant: &Variant, slice: &[u8], is_all: bool) -> Option<usize>
    requires { 16 + further_len variant.now.further ≤ length slice.now }
    ensures { Stores variant.now is_all slice.now result }
{
    let begin = HEAD + variant.further.len();
    let included = included(variant.order, &slice[..HEAD]);
    let end = begin + included;
    if slice.len() >= end + begin {
        if is_head_at(variant, slice, end) {
            return Some(included);
        }
        return Some(shortened(variant, slice, begin, end));
    }
    if !is_all {
        return None;
    }
    if slice.len() == end {
        return Some(included);
    }
    Some(shortened(variant, slice, begin, end))
}

/// Looks at the front of a slice, `left` bytes before the next head.
pub(crate) fn look(variant: &Variant, left: usize, slice: &[u8], is_all: bool) -> Option<Step>
    requires { 0 < length slice.now }
    ensures { Looks variant.now left is_all slice.now result }
{
    if left > 0 {
        let len = left.min(slice.len());
        return Some(Step {
            written: len,
            passed: len,
            left: left - len,
        });
    }
    let begin = HEAD + variant.further.len();
    if slice.len() < begin {
        return None;
    }
    if !can_be_head(variant.order, &slice[..HEAD]) {
        return skip(variant, slice, is_all);
    }
    let left = stored(variant, slice, is_all)?;
    Some(Step {
        written: HEAD,
        passed: begin,
        left,
    })
}
