//! A table of captures: one row for each, with tabs between the columns.

ghost use Rattle.std.specs.Prelude.{◌≡◌, option_map, IfOk, string_bytes};
ghost use Rattle.std.specs.List.{list_all};
ghost use Rattle.pcap_core.specs.Link.{link_number};
ghost use Rattle.pcapfile_shown.specs.Table.{amounts, AreFigures, AreTimes, ending, first_link, has_link, interfaces_of, IsLinkText, IsRow, or_hyphen, rates, row, ShowsLink, ShowsShared};
ghost use Rattle.pcapfile_shown.specs.Texts.{hundredths_text, seconds_text};

use crate::members::{duration_of_all, rate_of};
use crate::rate::{Hundredths, Seconds, hundredths_of};
use crate::told::name_of;
use pcap_core::{DataLink, LinkField};
use pcap_file::pcap::PcapHeader;
use pcapfile_info::{Described, Information, Tally};
use pcapfile_lines::utc_text;
use std::alloc::{AllocError, Global};

/// The first line of a table of captures: the names of the columns. Those that `write_json` knows too have its members' names.
pub const COLUMNS: &str =
    "file\tformat\tpackets\tbytes\toriginal\tstored\tearliest\tlatest\tduration\taverage\tpackets_per_second\tbytes_per_second\tinterfaces\tlink\trefused\tstatus\tcheck\n";

/// The last columns of a row.
#[derive(Clone, Copy)]
pub(crate) struct Ending<'a> {
    pub(crate) interfaces: u64,
    pub(crate) link: &'a str,
    pub(crate) refused: u64,
    pub(crate) status: u8,
    pub(crate) check: &'a str,
}

fn seconds_or_hyphen(alloc: Global, time: Option<Seconds>) -> Result<String, AllocError>
    ensures { IfOk result (λ text. string_bytes text ≡ or_hyphen seconds_text (option_map (λ s. s.0) time)) }
{
    match time {
        None => String::from_str(alloc, "-"),
        Some(time) => time.to_string(alloc),
    }
}

fn hundredths_or_hyphen(alloc: Global, hundredths: Option<Hundredths>) -> Result<String, AllocError>
    ensures { IfOk result (λ text. string_bytes text ≡ or_hyphen hundredths_text (option_map (λ h. h.0) hundredths)) }
{
    match hundredths {
        None => String::from_str(alloc, "-"),
        Some(hundredths) => hundredths.to_string(alloc),
    }
}

// Returns the columns on amounts.
fn amounts(alloc: Global, bytes: u64, tally: &Tally) -> Result<String, AllocError>
    ensures { IfOk result (λ text. string_bytes text ≡ amounts bytes tally.now) }
{
    let packets = tally.packets;
    let original = tally.original;
    let stored = tally.stored;
    format!(in alloc; "{packets}\t{bytes}\t{original}\t{stored}")
}

// Returns the columns on times.
fn times(alloc: Global, tally: &Tally) -> Result<String, AllocError>
    ensures { IfOk result (λ text. AreTimes tally.now (string_bytes text)) }
{
    let earliest = utc_text(alloc, tally.earliest, "-")?;
    let latest = utc_text(alloc, tally.latest, "-")?;
    let duration = seconds_or_hyphen(alloc, duration_of_all(tally))?;
    format!(in alloc; "{earliest}\t{latest}\t{duration}")
}

// Returns the columns on rates.
fn rates(alloc: Global, tally: &Tally) -> Result<String, AllocError>
    ensures { IfOk result (λ text. string_bytes text ≡ rates tally.now) }
{
    let duration = duration_of_all(tally);
    let average = hundredths_or_hyphen(alloc, hundredths_of(tally.original, tally.packets))?;
    let packets = hundredths_or_hyphen(alloc, rate_of(tally.packets, duration))?;
    let bytes = hundredths_or_hyphen(alloc, rate_of(tally.original, duration))?;
    format!(in alloc; "{average}\t{packets}\t{bytes}")
}

/// Returns the columns on the packets and bytes of files with so many bytes.
pub(crate) fn figures(alloc: Global, bytes: u64, tally: &Tally) -> Result<String, AllocError>
    ensures { IfOk result (λ text. AreFigures bytes tally.now (string_bytes text)) }
{
    let amounts = amounts(alloc, bytes, tally)?;
    let times = times(alloc, tally)?;
    let rates = rates(alloc, tally)?;
    format!(in alloc; "{amounts}\t{times}\t{rates}")
}

/// Returns the row with these columns.
pub(crate) fn row_with(
    alloc: Global,
    name: &str,
    format: &str,
    figures: &str,
    last: Ending<'_>,
) -> Result<String, AllocError>
    ensures { IfOk result (λ line. string_bytes line ≡ row name.now format.now figures.now (ending last.entry.interfaces last.entry.link.now last.entry.refused last.entry.status last.entry.check.now)) }
{
    let Ending {
        interfaces,
        link,
        refused,
        status,
        check,
    } = last;
    let last = format!(in alloc; "{interfaces}\t{link}\t{refused}\t{status}\t{check}")?;
    format!(in alloc; "{name}\t{format}\t{figures}\t{last}\n")
}

// Returns whether all these interfaces have the link type of this number.
fn have_all(number: u32, described: &[Described]) -> bool
    ensures { result ≡ list_all (has_link number) described.now }
{
    described
        .iter()
        .all(|described| u32::from(described.link) == number)
}

// Returns a link type: a name, and its number.
fn link_text(alloc: Global, link: DataLink) -> Result<String, AllocError>
    ensures { IfOk result (λ text. IsLinkText (link_number link) (string_bytes text)) }
{
    let name = format!(in alloc; "{link:?}")?;
    let number = u32::from(link);
    format!(in alloc; "{name} ({number})")
}

// Returns this link type if all these interfaces have it, and the word several otherwise.
fn shared(alloc: Global, link: DataLink, described: &[Described]) -> Result<String, AllocError>
    ensures { IfOk result (λ text. ShowsShared (link_number link) described.now (string_bytes text)) }
{
    if have_all(u32::from(link), described) {
        link_text(alloc, link)
    } else {
        String::from_str(alloc, "several")
    }
}

// Returns the link type of the first interface, if there is one. The header of a classic capture counts as an interface.
fn first_link(header: &Option<PcapHeader>, described: &[Described]) -> Option<DataLink>
    ensures { option_map link_number result ≡ first_link header.now described.now }
{
    match header {
        Some(header) => Some(LinkField::from(u32::from(header.datalink)).link),
        None => match described.first() {
            Some(first) => Some(first.link),
            None => None,
        },
    }
}

// Returns the link type that the first interface shares with all others, the word several, or a hyphen if there is no interface.
fn link_of(
    alloc: Global,
    first: Option<DataLink>,
    described: &[Described],
) -> Result<String, AllocError>
    ensures { IfOk result (λ text. ShowsLink (option_map link_number first) described.now (string_bytes text)) }
{
    match first {
        None => String::from_str(alloc, "-"),
        Some(link) => shared(alloc, link, described),
    }
}

/// Returns the number of interfaces of a capture. The header of a classic capture counts as one.
pub(crate) fn interfaces_of(told: &Information) -> u64
    ensures { result ≡ interfaces_of told.now }
{
    let described = told.described.len() as u64;
    match &told.header {
        Some(_) => described.saturating_add(1),
        None => described,
    }
}

/// Returns the row of the capture of this name in a table whose first line is `COLUMNS`. Times are in UTC, and unknown values are
/// hyphens. The name must have no tab and no line break. `AllocError` if there is no memory for the row.
pub fn row_of(alloc: Global, name: &str, told: &Information) -> Result<String, AllocError>
    ensures { IfOk result (λ line. IsRow name.now told.now (string_bytes line)) }
{
    let checked = &told.checked;
    let figures = figures(alloc, checked.bytes, &told.totals.all)?;
    let described = told.described.as_slice();
    let link = link_of(alloc, first_link(&told.header, described), described)?;
    let check = format!(in alloc; "{checked}")?;
    let last = Ending {
        interfaces: interfaces_of(told),
        link: link.as_str(),
        refused: told.totals.refused,
        status: checked.status(),
        check: check.as_str(),
    };
    row_with(alloc, name, name_of(checked.format), figures.as_str(), last)
}
