//! Copies that write items unchanged, for any format.

ghost use Rattle.std.specs.Prelude.{◌≡◌, [], false};
ghost use Rattle.pcap_items.specs.AsTheyCame.{HoldsNext, PassesItem};
ghost use Rattle.pcap_items.specs.Format.{Format};
ghost use Rattle.pcap_items.specs.Held.{held_bytes};

use crate::stream::{Ahead, AheadShown, Held, Sent, Tally, put};
use pcap_core::ResultParsing;
use std::alloc::Global;
use std::io::{Read, Write};

/// A format whose items can be held one at a time, or skipped in a buffer.
pub trait Holding {
    /// The state between two items.
    type Place;

    ghost State: { Type 0 };

    ghost Value: { Type 0 };

    ghost format: { Self → Format State Value };

    ghost state: { Self.Place → State };

    ghost leaves: { Value → Type 0 };

    /// Holds the bytes of the next item, and updates the state by what the item says. Returns whether there was an item.
    fn hold_next<R: Read>(
        &self,
        alloc: Global,
        place: &mut Self::Place,
        reader: &mut R,
        has_failed: &mut bool,
        held: &mut Held,
    ) -> ResultParsing<bool>
        requires between { held_bytes held.old ≡ [] }
        requires unfailed { has_failed.old ≡ false }
        ensures { HoldsNext (format self.now) (state place.old) (state place.new)
            (R.remaining reader.old) (R.remaining reader.new) (held_bytes held.new) has_failed.new result };

    /// Returns what follows the item at the front of the bytes, if it is there whole and leaves the state unchanged.
    fn pass<'a>(&self, place: &Self::Place, bytes: &'a [u8]) -> Option<&'a [u8]>
        ensures { PassesItem (format self.now) leaves (state place.now) bytes.now result };
}

/// Items that a copy writes unchanged.
#[derive(Drop)]
pub struct AsTheyCame<H> {
    /// The format that holds the items.
    pub items: H,
}

impl<H: Holding> Ahead for AsTheyCame<H> {
    ghost use Rattle.pcap_items.specs.AsTheyCame.{as_they_came};
    ghost use Rattle.pcap_items.specs.Format.{IsLawful};

    type Place = H::Place;

    ghost State = { H.State };

    ghost Value = { H.Value };

    ghost stands = { λ copied. IsLawful (H.format copied.items) };

    ghost format = { λ copied. H.format copied.items };

    ghost written = { λ copied. as_they_came };

    ghost state = { H.state };

    #[inline(always)]
    fn copy_next<R: Read, W: Write>(
        &self,
        alloc: Global,
        place: &mut H::Place,
        reader: &mut R,
        writer: &mut W,
        tally: &mut Tally,
        held: &mut Held,
    ) -> ResultParsing<bool> {
        if !self
            .items
            .hold_next(alloc, place, reader, &mut tally.read_failed, held)?
        {
            return Ok(false);
        }
        put(writer, &mut tally.write_failed, held.as_slice())?;
        held.clear();
        tally.items += 1;
        Ok(true)
    }
}

impl<H: Holding> AheadShown for AsTheyCame<H> {
    fn put_shown<W: Write>(
        &self,
        place: &H::Place,
        writer: &mut W,
        has_failed: &mut bool,
        shown: &[u8],
        most: u64,
    ) -> Sent {
        let mut items = 0;
        let mut used = 0;
        while items < most {
            let Some(after) = self.items.pass(place, &shown[used..]) else {
                return Sent {
                    items,
                    used,
                    fault: None,
                };
            };
            let end = shown.len() - after.len();
            if let Err(error) = put(writer, has_failed, &shown[used..end]) {
                return Sent {
                    items,
                    used: end,
                    fault: Some(error),
                };
            }
            used = end;
            items += 1;
        }
        Sent {
            items,
            used,
            fault: None,
        }
    }
}
