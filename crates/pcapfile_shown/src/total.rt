//! Totals over several captures.

ghost use Rattle.std.specs.Prelude.{◌≡◌, ◌<◌, ◌+◌, ℕ, IfOk, slice_index, string_bytes};
ghost use Rattle.serde_json.specs.Data.{object};
ghost use Rattle.serde_json.specs.View.{members_view};
ghost use Rattle.serde_json.specs.Written.{compact_text};
ghost use Rattle.pcapfile_run.specs.Passing.{counted};
ghost use Rattle.pcapfile_info.specs.Tallies.{IsAfter, IsBefore, IsFirstWith, IsOrderWith, no_tally};
ghost use Rattle.pcapfile_shown.specs.Sums.{AreTogether, HasAdded, IsTotalRow, total_members};

use crate::figures::Figures;
use crate::members::put_figures;
use crate::table::{Ending, figures, interfaces_of, row_with};
use pcap_file::pcapng::Timestamp;
use pcapfile_info::{CLASSES, Information, Late, Tally};
use serde_json::{Map, Value, put};
use std::alloc::{AllocError, Global};
use std::fmt;

/// The totals over several captures. A number above 2^64 - 1 is reported as 2^64 - 1.
#[derive(Clone, Copy, Debug)]
pub struct Total {
    /// The number of captures.
    pub files: u64,
    /// The number of their bytes that were read.
    pub bytes: u64,
    /// The number of their interfaces. A classic capture with a header has one.
    pub interfaces: u64,
    /// The number of packets with a malformed body. They are counted nowhere else.
    pub refused: u64,
    /// The counts of all packets, without their spread over time.
    pub counts: Tally,
}

// Returns the earlier of two times, as far as they are known.
fn earlier(known: Option<Timestamp>, time: Option<Timestamp>) -> Option<Timestamp>
    ensures { IsFirstWith IsBefore known time result }
{
    let Some(time) = time else {
        return known;
    };
    match known {
        Some(first) if first < time => known,
        _ => Some(time),
    }
}

// Returns the later of two times, as far as they are known.
fn later(known: Option<Timestamp>, time: Option<Timestamp>) -> Option<Timestamp>
    ensures { IsFirstWith IsAfter known time result }
{
    let Some(time) = time else {
        return known;
    };
    match known {
        Some(last) if time < last => known,
        _ => Some(time),
    }
}

// Returns false if the second time is before the first one, and what is known so far otherwise.
fn order_with(latest: Option<Timestamp>, earliest: Option<Timestamp>, known: bool) -> bool
    ensures { IsOrderWith latest earliest known result }
{
    let Some(earliest) = earliest else {
        return known;
    };
    match latest {
        Some(latest) if earliest < latest => false,
        _ => known,
    }
}

// Returns the sums of the packets in each class of lengths.
fn sizes_together(one: &[u64; CLASSES], other: &[u64; CLASSES]) -> [u64; CLASSES]
    ensures { (class : ℕ) → class < 10 → slice_index result class ≡ counted (slice_index one.now class + slice_index other.now class) }
{
    let mut sizes = *one;
    for class in 0..CLASSES {
        sizes[class] = one[class].saturating_add(other[class]);
    }
    sizes
}

// Returns the counts of two sets of packets together, without their spread over time.
fn together(one: &Tally, other: &Tally) -> Tally
    ensures { AreTogether one.now other.now result }
{
    Tally {
        packets: one.packets.saturating_add(other.packets),
        stored: one.stored.saturating_add(other.stored),
        original: one.original.saturating_add(other.original),
        earliest: earlier(one.earliest, other.earliest),
        latest: later(one.latest, other.latest),
        in_order: order_with(one.latest, other.earliest, one.in_order && other.in_order),
        sizes: sizes_together(&one.sizes, &other.sizes),
        spread: None,
    }
}

impl Total {
    /// Returns the totals over no captures.
    pub fn new() -> Total
        ensures { result ≡ record { files = 0; bytes = 0; interfaces = 0; refused = 0; counts = no_tally } }
    {
        Total {
            files: 0,
            bytes: 0,
            interfaces: 0,
            refused: 0,
            counts: Late::NoPacket.tally(),
        }
    }

    /// Adds a capture.
    pub fn add(&mut self, told: &Information)
        ensures { HasAdded told.now self.old self.new }
    {
        self.files = self.files.saturating_add(1);
        self.bytes = self.bytes.saturating_add(told.checked.bytes);
        self.interfaces = self.interfaces.saturating_add(interfaces_of(told));
        self.refused = self.refused.saturating_add(told.totals.refused);
        self.counts = together(&self.counts, &told.totals.all);
    }

    /// Returns the row of the totals in a table whose first line is `COLUMNS`. The status is the worst one of the captures.
    /// `AllocError` if there is no memory for the row.
    pub fn row(&self, alloc: Global, status: u8) -> Result<String, AllocError>
        ensures { IfOk result (λ line. IsTotalRow self.now status (string_bytes line)) }
    {
        let files = self.files;
        let figures = figures(alloc, self.bytes, &self.counts)?;
        let check = format!(in alloc; "{files} files")?;
        let last = Ending {
            interfaces: self.interfaces,
            link: "-",
            refused: self.refused,
            status,
            check: check.as_str(),
        };
        row_with(alloc, "total", "-", figures.as_str(), last)
    }

    // Returns the members of the totals as JSON.
    fn members(&self, alloc: Global, status: u8) -> Result<Map<String, Value>, AllocError>
        ensures { IfOk result (λ map. members_view map.entries ≡ total_members self.now status) }
    {
        let mut map = Map::new(alloc);
        put(&mut map, alloc, "files", Value::from(self.files))?;
        put(&mut map, alloc, "status", Value::from(status))?;
        put(&mut map, alloc, "bytes", Value::from(self.bytes))?;
        put(&mut map, alloc, "refused", Value::from(self.refused))?;
        put_figures(&mut map, alloc, &self.counts)?;
        Ok(map)
    }

    /// Returns the totals as a JSON object: the number of `files`, the worst `status` of the captures, and the sums of their
    /// figures. `AllocError` if there is no memory for the object.
    pub fn json(&self, alloc: Global, status: u8) -> Result<String, AllocError>
        ensures { IfOk result (λ text. string_bytes text ≡ compact_text (object (total_members self.now status))) }
    {
        let members = self.members(alloc, status)?;
        Ok(Value::Object(members).to_string(alloc)?)
    }
}

/// Writes the totals in lines, as a report has them.
impl fmt::Display for Total {
    fn fmt<W: fmt::Write>(&self, f: &mut fmt::Formatter<W>) -> fmt::Result {
        let files = self.files;
        let bytes = self.bytes;
        let interfaces = self.interfaces;
        let refused = self.refused;
        writeln!(f, "total: {files} files, {bytes} bytes")?;
        writeln!(f, "  Interfaces:        {interfaces}")?;
        if refused > 0 {
            writeln!(f, "  Refused packets:   {refused}")?;
        }
        let figures = Figures(&self.counts);
        write!(f, "{figures}")
    }
}
