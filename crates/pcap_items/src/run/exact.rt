//! Items of a capture that is shown exactly as its parser requests it, for any format.

ghost use Rattle.std.specs.Prelude.{◌≡◌, ◌≤◌, ◌+◌, ◌<◌, ◌^◌, ℕ, List, ◌++◌, map, drop, All, IfOk, IfErr};
ghost use Rattle.pcap_items.specs.Exact.{ExactItems};
ghost use Rattle.pcap_items.specs.Format.{IsLawful};
ghost use Rattle.pcap_items.specs.Found.{IfItem};
ghost use Rattle.pcap_items.specs.Items.{FoundAt, GrowsIn};
ghost use Rattle.pcap_items.specs.Requested.{AsksItem};
ghost use Rattle.pcap_items.specs.Window.{bytes_of, shown_of, requests_made};

use crate::run::items::{Ended, ItemRun, Items};
use crate::run::{Found, Window};
use std::alloc::{AllocError, Global};

/// Parses all items at the front of the bytes that a window has not shown yet, and reports the rest. The window shows each
/// byte only after the parser requested it. `requests` counts the requests.
///
/// `used` counts from the window's first byte. `AllocError` has the same causes as in `parse_items`.
pub fn show_items<'a, P: Items<'a>>(
    alloc: Global,
    parser: &mut P,
    window: &mut Window<'a>,
    requests: &mut u64,
) -> Result<ItemRun<P::Item, P::Refusal>, AllocError>
    requires lawful { IsLawful P.format }
    requires few { requests.old ≤ 2 }
    requires some { 12 ≤ shown_of window.old }
    ensures bytes { bytes_of window.new ≡ bytes_of window.old }
    ensures items { IfOk result (λ run. ExactItems P.format P.part P.shows
        (P.state parser.old) (P.state parser.new) (map P.view run.items.items) (bytes_of window.old) (shown_of window.old)
        run.used run.ended (requests_made window.old) (requests_made window.new) requests.old requests.new) }
    ensures lent { IfOk result (λ run. All P.lent run.items.items) }
    ensures memory { IfErr result (λ _. GrowsIn P.format P.grows (P.state parser.old) (drop (shown_of window.old) (bytes_of window.old))) }
{
    let mut items = Vec::new(alloc);
    while !window.is_done() {
        let used = window.seen().len();
        match show_item(parser, window, requests)? {
            Found::Item(item) => items.push(item)?,
            Found::Needs(n) => {
                return Ok(ItemRun {
                    items,
                    used,
                    ended: Ended::Needs(n),
                });
            }
            Found::Refused(e) => {
                return Ok(ItemRun {
                    items,
                    used,
                    ended: Ended::Refused(e),
                });
            }
        }
    }
    Ok(ItemRun {
        items,
        used: window.seen().len(),
        ended: Ended::Clean,
    })
}

// Shows what the parser requests for the next item, and counts the requests.
fn show_item<'a, P: Items<'a>>(
    parser: &mut P,
    window: &mut Window<'a>,
    requests: &mut u64,
) -> Result<Found<P::Item, P::Refusal>, AllocError>
    requires lawful { IsLawful P.format }
    requires room { requests.old + 3 < 2 ^ 64 }
    ensures bytes { bytes_of window.new ≡ bytes_of window.old }
    ensures asked { IfOk result
        (λ _. AsksItem P.format (P.state parser.old) (drop (shown_of window.old) (bytes_of window.old)) (requests_made window.old) (requests_made window.new)
        requests.old requests.new) }
    ensures found { IfOk result
        (FoundAt P.format P.part P.view P.shows (P.state parser.old) (P.state parser.new) (drop (shown_of window.old) (bytes_of window.old))
        (λ _. drop (shown_of window.new) (bytes_of window.old))) }
    ensures lent { IfOk result (IfItem P.lent) }
    ensures memory { IfErr result
        (λ _. (t : List ℕ) × (more : List ℕ) × (drop (shown_of window.old) (bytes_of window.old) ≡ t ++ more) × P.grows (P.state parser.old) t) }
{
    let start = window.seen().len();
    'asking: loop {
        match parser.next_item(window.seen_after(start))? {
            Found::Item((_, item)) => return Ok(Found::Item(item)),
            Found::Needs(n) => {
                let shown = window.ask(n);
                *requests += 1;
                if shown < n {
                    return Ok(Found::Needs(n - shown));
                }
            }
            Found::Refused(e) => return Ok(Found::Refused(e)),
        }
    }
}
