//! Finds where PcapNg captures in memory can be cut into parts, and which section and interfaces each part has.

ghost use Rattle.std.specs.Prelude.{◌≡◌, ◌≤◌, pos, length, max, IfErr, IfOk};
ghost use Rattle.pcap_core.specs.Answer.{Refuses, faulty, lacks};
ghost use Rattle.pcap_ng.specs.Opening.{OpeningSays};
ghost use Rattle.pcap_parts.specs.declared.parting.Parting.TheVariants as partings;
ghost use Rattle.pcap_parts.specs.Partings.{AsksSome};
ghost use Rattle.pcapfile_c.specs.Cuts.{CutMayGrow, CutsBlocks, Fills, HasRoom, MayLackPlaces, TellsBlockCuts};
ghost use Rattle.pcapfile_c.specs.Readers.{target};

use pcap_core::ResultParsing;
use pcap_parts::{NgCut, NgCuts, Parting, cut_pcapng, cut_pcapng_at_least};
use pcapfile_values::errors::{PcapfileError, tell};
use pcapfile_values::shown::PcapfileBytes;
use std::alloc::Global;

/// Finds where a PcapNg capture can be cut between blocks into parts of about equal length, at most as many as `cuts` has places. Each
/// part after the first begins at the first block boundary at or after the end of an equal share, if bytes follow there. `interfaces`
/// receives the places of the interfaces. `count` and `known` are set to the number of cuts and interfaces. Under status 11, `known` is
/// the number of interfaces that need a place, or 0 if `cuts` is empty. The cuts are `pcapfile_ng_cut` in C.
#[unsafe(no_mangle)]
pub extern "C" fn pcapfile_cut_blocks(
    alloc: Global,
    capture: &PcapfileBytes<'_>,
    cuts: &mut [NgCut],
    count: &mut usize,
    interfaces: &mut [usize],
    known: &mut usize,
    error: &mut PcapfileError,
) -> i32
    ensures told { TellsBlockCuts (partings.Equal (length cuts.old)) capture.now.bytes.now (target (cuts.old, interfaces.old) error.old)
        (target (cuts.new, interfaces.new) error.new) count.new known.new result }
    ensures lacking { MayLackPlaces (partings.Equal (length cuts.old)) capture.now.bytes.now cuts.old → (result ≡ pos 11) × (known.new ≡ 0) }
{
    *count = 0;
    *known = 0;
    if cuts.is_empty() {
        return 11;
    }
    let parting = Parting::Equal(cuts.len());
    fill_cuts(
        alloc,
        capture.bytes,
        parting,
        cuts,
        count,
        interfaces,
        known,
        error,
    )
}

/// Finds where a PcapNg capture can be cut between blocks into parts of at least `at_least` bytes. `count` and `known` are set to the
/// number of cuts and interfaces. Under status 11, `known` is the number of interfaces that need a place, or 0 if there may be too few
/// places for the cuts.
#[unsafe(no_mangle)]
pub extern "C" fn pcapfile_cut_blocks_at_least(
    alloc: Global,
    capture: &PcapfileBytes<'_>,
    at_least: usize,
    cuts: &mut [NgCut],
    count: &mut usize,
    interfaces: &mut [usize],
    known: &mut usize,
    error: &mut PcapfileError,
) -> i32
    ensures told { TellsBlockCuts (partings.AtLeast (max at_least 1)) capture.now.bytes.now (target (cuts.old, interfaces.old) error.old)
        (target (cuts.new, interfaces.new) error.new) count.new known.new result }
    ensures lacking { MayLackPlaces (partings.AtLeast (max at_least 1)) capture.now.bytes.now cuts.old → (result ≡ pos 11) × (known.new ≡ 0) }
{
    *count = 0;
    *known = 0;
    let wanted = at_least.max(1);
    if cuts.len().saturating_mul(wanted) <= capture.bytes.len() {
        return 11;
    }
    let parting = Parting::AtLeast(wanted);
    fill_cuts(
        alloc,
        capture.bytes,
        parting,
        cuts,
        count,
        interfaces,
        known,
        error,
    )
}

// Writes the requested cuts and the places of the interfaces into the first places. `cuts` must have room for every cut. Its parameters are
// those of the calls for C.
fn fill_cuts(
    alloc: Global,
    bytes: &[u8],
    parting: Parting,
    cuts: &mut [NgCut],
    count: &mut usize,
    interfaces: &mut [usize],
    known: &mut usize,
    error: &mut PcapfileError,
) -> i32
    requires no_cut { count.old ≡ 0 }
    requires no_interface { known.old ≡ 0 }
    requires some { AsksSome parting }
    requires room { HasRoom parting (length bytes.now) (length cuts.old) }
    ensures { TellsBlockCuts parting bytes.now (target (cuts.old, interfaces.old) error.old)
        (target (cuts.new, interfaces.new) error.new) count.new known.new result }
{
    match cut_capture(alloc, bytes, parting) {
        Ok(found) => {
            *known = found.interfaces.len();
            if interfaces.len() < *known {
                return 11;
            }
            *count = fill(found.cuts.as_slice(), cuts);
            fill(found.interfaces.as_slice(), interfaces);
            0
        }
        Err(e) => tell(&e, error),
    }
}

// Returns the requested cuts of a capture, and the places of its interfaces.
fn cut_capture(alloc: Global, bytes: &[u8], parting: Parting) -> ResultParsing<NgCuts>
    requires { AsksSome parting }
    ensures cut { IfOk result (CutsBlocks parting bytes.now) }
    ensures refused { IfErr result (Refuses (CutMayGrow bytes.now) (λ n. OpeningSays bytes.now (lacks n)) (λ fault. OpeningSays bytes.now (faulty fault))) }
{
    match parting {
        Parting::Equal(parts) => cut_pcapng(alloc, bytes, parts),
        Parting::AtLeast(least) => cut_pcapng_at_least(alloc, bytes, least),
    }
}

// Copies these values into the first places, and returns how many they are.
fn fill<T: Copy>(values: &[T], places: &mut [T]) -> usize
    requires { length values.now ≤ length places.old }
    ensures { Fills values.now places.old places.new result }
{
    places[..values.len()].copy_from_slice(values);
    values.len()
}
