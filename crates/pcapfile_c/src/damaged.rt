//! Finds out in damaged captures whether a packet can be trusted, and where packets or blocks go on after corrupt bytes.

ghost use Rattle.std.specs.Prelude.{◌≡◌, ◌≢◌, ℕ, false, pos, IsTrue, None};
ghost use Rattle.pcap_classic.specs.Magic.{is_magic};
ghost use Rattle.pcapfile_values.specs.Blocks.{order_shown};
ghost use Rattle.pcapfile_c.specs.Calls.{RefusesMagic};
ghost use Rattle.pcapfile_c.specs.Damaged.{BlocksGoOn, PacketsGoOn, RefusesSection, ShowsWindow, Skips, SkipsTo, TellsFront, searched_in};
ghost use Rattle.pcapfile_c.specs.Readers.{reader};

use crate::as_is::parser_behind;
use pcap_core::PcapError;
use pcap_core::rules::Rule;
use pcap_damaged::{Judged, first_packets, judge};
use pcap_tolerant_captures::first_blocks;
use pcap_tolerant_captures::resync::resync_section;
use pcapfile_values::blocks::PcapfileSection;
use pcapfile_values::errors::{PcapfileError, tell, tell_broken};
use pcapfile_values::shown::{PcapfileBytes, PcapfileHeader};

/// The number of bytes that are searched at once.
const WINDOW: usize = 2_097_152;

/// The most bytes of four packets that break no rule.
const ROW: usize = 1_048_640;

/// Finds out whether a packet record is at the front of `bytes`, by what follows it. Sets `gap` to 0 if there is one, and otherwise to the
/// number of corrupt bytes before the first packet record inside it. Sets `length` to the length of its data if the stored one is wrong, and
/// otherwise to 0. `time` is that of the packet record before, in seconds. `is_all` is not 0 if `bytes` reaches to the end of the capture.
#[unsafe(no_mangle)]
pub extern "C" fn pcapfile_judge_packet(
    header: &PcapfileHeader,
    time: u32,
    bytes: &PcapfileBytes<'_>,
    is_all: u8,
    gap: &mut usize,
    length: &mut u32,
    error: &mut PcapfileError,
) -> i32
    ensures told { IsTrue (is_magic header.now.magic_number) →
        TellsFront header.now time is_all (reader bytes.now.bytes.now (gap.old, length.old) error.old)
        (reader bytes.now.bytes.now (gap.new, length.new) error.new) result }
    ensures refused { is_magic header.now.magic_number ≡ false →
        RefusesMagic {S = ℕ × ℕ} bytes.now bytes.now (gap.old, length.old) (gap.new, length.new) error.new result }
{
    let Some(parser) = parser_behind(header) else {
        return tell_broken(Rule::CaptureMagic, error);
    };
    match judge(&parser, time, bytes.bytes, is_all > 0) {
        Judged::Packet => tell_front(0, 0, gap, length),
        Judged::Length(right) => tell_front(0, right, gap, length),
        Judged::Gap(corrupt) => tell_front(corrupt, 0, gap, length),
        Judged::Corrupt => 8,
        Judged::Missing(missing) => tell(&PcapError::IncompleteBuffer(missing), error),
    }
}

/// Counts the corrupt bytes at the front of `bytes`, up to the first place from which packet records go on near `time`, in seconds, or near
/// each other. Sets `is_over` to 0 if more may follow them, and otherwise to 1.
#[unsafe(no_mangle)]
pub extern "C" fn pcapfile_skip_to_packets(
    header: &PcapfileHeader,
    time: u32,
    bytes: &PcapfileBytes<'_>,
    is_all: u8,
    skipped: &mut usize,
    is_over: &mut u8,
    error: &mut PcapfileError,
) -> i32
    ensures told { IsTrue (is_magic header.now.magic_number) →
        Skips (PacketsGoOn header.now time) is_all (reader bytes.now.bytes.now (skipped.old, is_over.old) error.old)
        (reader bytes.now.bytes.now (skipped.new, is_over.new) error.new) result }
    ensures refused { is_magic header.now.magic_number ≡ false →
        RefusesMagic {S = ℕ × ℕ} bytes.now bytes.now (skipped.old, is_over.old) (skipped.new, is_over.new) error.new result }
{
    let Some(parser) = parser_behind(header) else {
        return tell_broken(Rule::CaptureMagic, error);
    };
    match first_window(bytes.bytes, is_all > 0) {
        Ok(window) => {
            let found = first_packets(&parser, time, window.bytes, window.bound);
            tell_skipped(found, window, skipped, is_over)
        }
        Err(missing) => tell(&PcapError::IncompleteBuffer(missing), error),
    }
}

/// Counts the corrupt bytes at the front of `bytes`, up to the place from which blocks go on in a section, or before the first section a
/// section header. Sets `is_over` to 0 if more may follow them, and otherwise to 1.
#[unsafe(no_mangle)]
pub extern "C" fn pcapfile_skip_to_blocks(
    section: &PcapfileSection,
    bytes: &PcapfileBytes<'_>,
    is_all: u8,
    skipped: &mut usize,
    is_over: &mut u8,
    error: &mut PcapfileError,
) -> i32
    ensures told { order_shown section.now.magic_number ≢ None →
        Skips (BlocksGoOn section.now.magic_number) is_all (reader bytes.now.bytes.now (skipped.old, is_over.old) error.old)
        (reader bytes.now.bytes.now (skipped.new, is_over.new) error.new) result }
    ensures refused { order_shown section.now.magic_number ≡ None →
        RefusesSection (skipped.old, is_over.old) (skipped.new, is_over.new) error.new result }
{
    let Some(order) = section.order() else {
        return tell_broken(Rule::SectionMagic, error);
    };
    match first_window(bytes.bytes, is_all > 0) {
        Ok(window) => {
            let found = match section.magic_number {
                0 => resync_section(window.bytes),
                _ => first_blocks(order, window.bytes),
            };
            tell_skipped(found, window, skipped, is_over)
        }
        Err(missing) => tell(&PcapError::IncompleteBuffer(missing), error),
    }
}

// Sets the number of corrupt bytes at the front, and the length of a packet there whose stored length is wrong.
fn tell_front(corrupt: usize, right: u32, gap: &mut usize, length: &mut u32) -> i32
    ensures status { result ≡ pos 0 }
    ensures gap { gap.new ≡ corrupt }
    ensures length { length.new ≡ right }
{
    *gap = corrupt;
    *length = right;
    0
}

// The bytes that are searched at once.
#[derive(Clone, Copy)]
struct Window<'a> {
    bytes: &'a [u8],
    // The number of places at which more bytes would change nothing.
    bound: usize,
    // Whether the capture ends with these bytes.
    is_last: bool,
}

// Returns the bytes that are searched first, or how many are missing of them.
fn first_window(bytes: &[u8], is_all: bool) -> Result<Window<'_>, usize>
    ensures { ShowsWindow is_all bytes.now result }
{
    if is_all && bytes.len() <= WINDOW {
        return Ok(Window {
            bytes,
            bound: bytes.len(),
            is_last: true,
        });
    }
    if bytes.len() < WINDOW {
        return Err(WINDOW - bytes.len());
    }
    Ok(Window {
        bytes: &bytes[..WINDOW],
        bound: WINDOW - ROW,
        is_last: false,
    })
}

// Sets the number of corrupt bytes before a place that was found in a window, and whether no more follow them.
fn tell_skipped(
    found: Option<usize>,
    window: Window<'_>,
    skipped: &mut usize,
    is_over: &mut u8,
) -> i32
    ensures status { result ≡ pos 0 }
    ensures skipped { SkipsTo found (searched_in window.entry) (skipped.new, is_over.new) }
{
    match found {
        Some(place) if place < window.bound => {
            *skipped = place;
            *is_over = 1;
        }
        _ => {
            *skipped = window.bound;
            *is_over = u8::from(window.is_last);
        }
    }
    0
}
