//! Cutting packets out of a classic capture.

ghost use Rattle.std.specs.Prelude.{◌≡◌, ◌<◌, ◌+◌, ◌^◌, ◌&&◌, [], drop, true, false, if◌then◌else◌, IsTrue, IfErr, OnOk, MatchResult};
ghost use Rattle.pcap_items.specs.Held.{held_bytes};
ghost use Rattle.pcap_items.specs.Writing.{WritesAll};
ghost use Rattle.pcap_classic.specs.Magic.{is_magic};
ghost use Rattle.pcap_classic.specs.StatedPackets.{held_packet};
ghost use Rattle.pcapfile_cut.specs.Changes.{is_unmoved, stored_of, written_for};
ghost use Rattle.pcapfile_cut.specs.Choice.{dedup_of};
ghost use Rattle.pcapfile_cut.specs.Cuts.{CutsBehind, CutsPart, IsNew, StepsCut, outcome_of, progress};
ghost use Rattle.pcapfile_cut.specs.Duplicates.{most_remembered, remembered};
ghost use Rattle.pcapfile_cut.specs.Openings.{header_of};

use crate::changing::{Found, data_of, put_found};
use crate::duplicates::Recent;
use crate::opening::Opening;
use crate::wanted::Wanted;
use pcap_classic::pcap::{PacketsUnder, PcapHeader};
use pcap_core::{PcapError, ResultParsing};
use pcap_items::stream::{Held, fill_item, put};
use std::alloc::Global;
use std::io::{Read, Write};

/// The outcome of a cut.
#[derive(Debug, Drop)]
pub struct Outcome {
    /// The number of whole packets that were read, including those that weren't written.
    pub packets: u64,
    /// The number of bytes of these packets, at most 2^64 - 1.
    pub bytes: u64,
    /// The number of these packets that were left out as duplicates, at most 2^64 - 1.
    pub duplicates: u64,
    /// The number of packets that were written with their own time, since they can't have the one that was asked for; at most 2^64 - 1.
    pub unmoved: u64,
    /// The error that ended the cut before the end of the capture and before the last wanted packet. `None` if there was none.
    pub fault: Option<PcapError>,
    /// True if a read failed.
    pub read_failed: bool,
    /// True if a write failed.
    pub write_failed: bool,
}

impl Outcome {
    /// Returns the outcome of a cut that has read and written nothing.
    pub fn none() -> Outcome
        ensures { IsNew result }
    {
        Outcome {
            packets: 0,
            bytes: 0,
            duplicates: 0,
            unmoved: 0,
            fault: None,
            read_failed: false,
            write_failed: false,
        }
    }
}

// The header of the capture that is cut, and its packets that are written.
#[derive(Clone, Copy)]
pub(crate) struct Cut<'a> {
    pub(crate) header: &'a PcapHeader,
    pub(crate) wanted: Wanted<'a>,
}

/// Writes one part of a capture: its opening, and the bytes of the wanted packets. The caller has read the opening, or an
/// earlier part, from the input.
///
/// Without an error, the function has read exactly the packets that it counts, up to the end of the input or the last wanted
/// one. For a truncated or malformed rest it returns the error of `PcapReader`, after it has written all wanted packets before.
/// It then has read no more of the rest than was missing. `IoError` also if a write failed: the output then has a beginning of
/// the next bytes, and that packet has been read. `OutOfMemory` if there is no memory for a packet, or for the digests of the packets
/// that duplicates are compared with.
pub fn cut_part<R: Read, W: Write>(
    alloc: Global,
    opening: &Opening,
    input: &mut R,
    output: &mut W,
    wanted: Wanted<'_>,
) -> Outcome
    ensures { CutsPart opening.now wanted.entry (R.remaining input.old) (R.remaining input.new) (W.contents output.old) (W.contents output.new) result }
{
    let mut outcome = Outcome::none();
    outcome.fault = cut_under(alloc, opening, input, output, wanted, &mut outcome).err();
    outcome
}

/// Writes more of a part whose opening was written: the bytes of the wanted packets. The caller has read the opening, or earlier packets,
/// from the input.
///
/// What the function reads and writes, and its errors, are those of `cut_part` after the opening. It counts only its own packets.
pub fn cut_more<R: Read, W: Write>(
    alloc: Global,
    opening: &Opening,
    input: &mut R,
    output: &mut W,
    wanted: Wanted<'_>,
) -> Outcome
    ensures { CutsBehind (header_of opening.now) wanted.entry (R.remaining input.old) (R.remaining input.new)
        (W.contents output.old) (W.contents output.new) result }
{
    let mut outcome = Outcome::none();
    let header = opening.header();
    outcome.fault = cut_packets(alloc, header, input, output, wanted, &mut outcome).err();
    outcome
}

// Writes the opening and the packets, and counts the packets.
fn cut_under<R: Read, W: Write>(
    alloc: Global,
    opening: &Opening,
    input: &mut R,
    output: &mut W,
    wanted: Wanted<'_>,
    outcome: &mut Outcome,
) -> ResultParsing<()>
    requires { IsNew outcome.old }
    ensures { CutsPart opening.now wanted.entry (R.remaining input.old) (R.remaining input.new) (W.contents output.old) (W.contents output.new)
        (outcome_of outcome.new result) }
{
    let bytes = opening.bytes_in(wanted.changes().resolution);
    put(output, &mut outcome.write_failed, &bytes)?;
    cut_packets(alloc, opening.header(), input, output, wanted, outcome)
}

// Writes the wanted packets, and counts all packets that it reads.
fn cut_packets<R: Read, W: Write>(
    alloc: Global,
    header: &PcapHeader,
    input: &mut R,
    output: &mut W,
    wanted: Wanted<'_>,
    outcome: &mut Outcome,
) -> ResultParsing<()>
    requires valid { IsTrue (is_magic header.now.magic_number) }
    requires new { IsNew outcome.old }
    ensures { CutsBehind header.now wanted.entry (R.remaining input.old) (R.remaining input.new) (W.contents output.old) (W.contents output.new)
        (outcome_of outcome.new result) }
{
    if !wanted.wants_more(outcome.packets, outcome.bytes) {
        return Ok(());
    }
    let cut = Cut { header, wanted };
    let mut held = Held::new(alloc);
    let mut recent = Recent::new(alloc, wanted.dedup())?;
    while wanted.wants_more(outcome.packets, outcome.bytes) {
        if !cut_next(cut, input, output, outcome, &mut held, &mut recent)? {
            return Ok(());
        }
    }
    Ok(())
}

// Reads the next packet, writes it if it is wanted and no duplicate, and returns whether there was one.
pub(crate) fn cut_next<R: Read, W: Write>(
    cut: Cut<'_>,
    input: &mut R,
    output: &mut W,
    outcome: &mut Outcome,
    held: &mut Held,
    recent: &mut Recent,
) -> ResultParsing<bool>
    requires valid { IsTrue (is_magic cut.header.now.magic_number) }
    requires countable { outcome.old.packets + 1 < 2 ^ 64 }
    requires no_read_failed { outcome.old.read_failed ≡ false }
    requires no_write_failed { outcome.old.write_failed ≡ false }
    requires between { held_bytes held.old ≡ [] }
    requires most { most_remembered recent.old ≡ dedup_of cut.wanted }
    ensures steps { StepsCut cut.entry.header.now cut.entry.wanted (progress (R.remaining input.old) (W.contents output.old) outcome.old (remembered recent.old))
        (progress (R.remaining input.new) (W.contents output.new) outcome.new (remembered recent.new)) result }
    ensures between { OnOk result (held_bytes held.new ≡ []) }
    ensures most { OnOk result (most_remembered recent.new ≡ most_remembered recent.old) }
{
    let Cut { header, wanted } = cut;
    let packets = PacketsUnder { header };
    let Some(head) = fill_item(&packets, input, &mut outcome.read_failed, held)? else {
        return Ok(false);
    };
    let text = held.as_slice();
    let choice = wanted.choose(recent, outcome.packets + 1, &head, data_of(text));
    let found = Found { header, head, text };
    let keeps_time = is_unmoved(choice.is_written, wanted, found);
    put_if(
        output,
        &mut outcome.write_failed,
        choice.is_written,
        wanted,
        found,
    )?;
    outcome.packets += 1;
    outcome.bytes = outcome.bytes.saturating_add(text.len() as u64);
    outcome.duplicates = outcome
        .duplicates
        .saturating_add(u64::from(choice.is_duplicate));
    outcome.unmoved = outcome.unmoved.saturating_add(u64::from(keeps_time));
    held.clear();
    Ok(true)
}

// Returns whether a packet is written with its own time, since it can't have the one that is asked for.
fn is_unmoved(is_wanted: bool, wanted: Wanted<'_>, found: Found<'_>) -> bool
    requires { IsTrue (is_magic found.header.now.magic_number) }
    ensures { result ≡ is_wanted && is_unmoved found.entry.header.now wanted.entry (stored_of found.entry).packet }
{
    if !is_wanted {
        return false;
    }
    let ts_resolution = found.header.ts_resolution();
    wanted.changes().keep_time(ts_resolution, &found.head)
}

// Writes a packet if it is wanted.
fn put_if<W: Write>(
    output: &mut W,
    has_failed: &mut bool,
    is_wanted: bool,
    wanted: Wanted<'_>,
    found: Found<'_>,
) -> ResultParsing<()>
    requires { IsTrue (is_magic found.header.now.magic_number) }
    ensures out { WritesAll (W.contents output.old) (W.contents output.new)
        (if is_wanted then written_for found.entry.header.now wanted.entry (stored_of found.entry) else []) result }
    ensures told { MatchResult result (λ _. has_failed.new ≡ has_failed.old) (λ _. has_failed.new ≡ true) }
    ensures wanted { IfErr result (λ _. is_wanted ≡ true) }
{
    if !is_wanted {
        return Ok(());
    }
    put_found(output, has_failed, wanted.changes(), found)
}
