//! Items that a parser lends from a slice, for any format.

ghost use Rattle.std.specs.Prelude.{◌≡◌, List, ℕ, map, All, IfOk, IfErr};
ghost use Rattle.pcap_core.specs.Faults.{Fault};
ghost use Rattle.pcap_items.specs.Format.{Format, IsLawful};
ghost use Rattle.pcap_items.specs.Found.{IfItem};
ghost use Rattle.pcap_items.specs.Items.{FindsItem, GrowsIn, RunsTo, rest_of};

use crate::Rest;
use crate::run::Found;
use pcap_core::PcapError;
use std::alloc::{AllocError, Global};

/// A parser that lends the item at the front of a slice.
pub trait Items<'a> {
    /// The form in which an item is lent.
    type Item: Drop;

    /// The error that reports why bytes begin no item.
    type Refusal: Drop;

    ghost State: { Type 0 };

    ghost Value: { Type 0 };

    ghost Part: { Type 0 };

    ghost format: { Format State Value };

    ghost state: { Self → State };

    ghost part: { Value → Part };

    ghost view: { Self.Item → Part };

    ghost lent: { Self.Item → Type 0 };

    ghost shows: { Self.Refusal → Fault → Type 0 };

    ghost grows: { State → List ℕ → Type 0 };

    /// Returns the item at the front of the slice and what follows it, or why there is none. Only an item changes the
    /// parser's state.
    fn next_item(
        &mut self,
        slice: &'a [u8],
    ) -> Result<Found<(&'a [u8], Self::Item), Self::Refusal>, AllocError>
        ensures finds { FindsItem format part view shows grows (state self.old) (state self.new) slice.now result }
        ensures lent { IfOk result (IfItem (λ x. lent x.1)) };
}

/// The end of a run: what follows its last item.
#[derive(Drop)]
pub enum Ended<E> {
    /// Nothing is left.
    Clean,
    /// A truncated item is left. At least this many bytes are missing.
    Needs(usize),
    /// The bytes that are left begin no item. The error says why.
    Refused(E),
}

impl From<Ended<PcapError>> for Rest {
    ghost from_gives = { λ ended rest. rest ≡ rest_of ended };

    fn from(ended: Ended<PcapError>) -> Rest {
        match ended {
            Ended::Clean => Rest::Clean,
            Ended::Needs(n) => Rest::Needs(n),
            Ended::Refused(e) => Rest::Refused(e),
        }
    }
}

/// The items of a run, the number of bytes that it used, and what follows them.
#[derive(Drop)]
pub struct ItemRun<T, E> {
    /// The items, in order.
    pub items: Vec<T>,
    /// The offset in the bytes at which the last item ends.
    pub used: usize,
    /// The end of the run: what follows at this offset.
    pub ended: Ended<E>,
}

/// Parses all items at the front of a slice, and reports the rest.
///
/// `AllocError` comes from the parser, or from the list of items, which grows only if there is an item.
pub fn parse_items<'a, P: Items<'a>>(
    alloc: Global,
    parser: &mut P,
    bytes: &'a [u8],
) -> Result<ItemRun<P::Item, P::Refusal>, AllocError>
    requires lawful { IsLawful P.format }
    ensures front { IfOk result
        (λ run. RunsTo P.format P.part P.shows (P.state parser.old) (P.state parser.new) (map P.view run.items.items) bytes.now run.used run.ended) }
    ensures lent { IfOk result (λ run. All P.lent run.items.items) }
    ensures memory { IfErr result (λ _. GrowsIn P.format P.grows (P.state parser.old) bytes.now) }
{
    let mut items = Vec::new(alloc);
    let mut left = bytes;
    while !left.is_empty() {
        let used = bytes.len() - left.len();
        match parser.next_item(left)? {
            Found::Item((after, item)) => {
                items.push(item)?;
                left = after;
            }
            Found::Needs(n) => {
                return Ok(ItemRun {
                    items,
                    used,
                    ended: Ended::Needs(n),
                });
            }
            Found::Refused(e) => {
                return Ok(ItemRun {
                    items,
                    used,
                    ended: Ended::Refused(e),
                });
            }
        }
    }
    Ok(ItemRun {
        items,
        used: bytes.len(),
        ended: Ended::Clean,
    })
}
