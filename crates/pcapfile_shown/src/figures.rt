//! Counts of packets as text, one line for each figure.

use crate::histogram::Sizes;
use crate::over_time::OverTime;
use crate::rate::{Seconds, duration_of, hundredths_of, hundredths_per_second};
use crate::time::Utc;
use pcap_file::pcapng::Timestamp;
use pcapfile_info::{Spread, Tally};
use std::fmt;

/// The lines on the counts of packets.
#[derive(Clone, Copy)]
pub(crate) struct Figures<'a>(pub(crate) &'a Tally);

/// The lines on the number of packets and their bytes.
#[derive(Clone, Copy)]
struct Amounts<'a>(&'a Tally);

/// The lines on the times of packets, and on their rates.
#[derive(Clone, Copy)]
struct Times<'a> {
    tally: &'a Tally,
    earliest: Timestamp,
    latest: Timestamp,
}

/// The lines on the spread of packets over time.
#[derive(Clone, Copy)]
struct Spans<'a>(&'a Spread);

impl fmt::Display for Amounts<'_> {
    fn fmt<W: fmt::Write>(&self, f: &mut fmt::Formatter<W>) -> fmt::Result {
        let tally = self.0;
        let packets = tally.packets;
        let stored = tally.stored;
        let original = tally.original;
        writeln!(f, "  Packets:           {packets}")?;
        writeln!(
            f,
            "  Data size:         {original} bytes, of which {stored} are stored"
        )?;
        if let Some(average) = hundredths_of(original, packets) {
            writeln!(f, "  Average size:      {average} bytes")?;
        }
        Ok(())
    }
}

impl fmt::Display for Times<'_> {
    fn fmt<W: fmt::Write>(&self, f: &mut fmt::Formatter<W>) -> fmt::Result {
        let earliest = Utc(self.earliest);
        let latest = Utc(self.latest);
        let order = if self.tally.in_order {
            "in order"
        } else {
            "not in order"
        };
        writeln!(f, "  Earliest packet:   {earliest}")?;
        writeln!(f, "  Latest packet:     {latest}")?;
        writeln!(f, "  Time order:        {order}")?;
        let Some(duration) = duration_of(self.earliest, self.latest) else {
            return Ok(());
        };
        writeln!(f, "  Duration:          {duration} seconds")?;
        if let Some(rate) = hundredths_per_second(self.tally.packets, duration) {
            writeln!(f, "  Packet rate:       {rate} packets a second")?;
        }
        if let Some(rate) = hundredths_per_second(self.tally.original, duration) {
            writeln!(f, "  Data rate:         {rate} bytes a second")?;
        }
        Ok(())
    }
}

impl fmt::Display for Spans<'_> {
    fn fmt<W: fmt::Write>(&self, f: &mut fmt::Formatter<W>) -> fmt::Result {
        let signs = OverTime(self.0);
        let width = Seconds(u128::from(self.0.width));
        writeln!(
            f,
            "  Packets over time: each sign is {width} seconds\n  |{signs}|"
        )
    }
}

impl fmt::Display for Figures<'_> {
    fn fmt<W: fmt::Write>(&self, f: &mut fmt::Formatter<W>) -> fmt::Result {
        let tally = self.0;
        let amounts = Amounts(tally);
        write!(f, "{amounts}")?;
        if let (Some(earliest), Some(latest)) = (tally.earliest, tally.latest) {
            let times = Times {
                tally,
                earliest,
                latest,
            };
            write!(f, "{times}")?;
        }
        if tally.packets > 0 {
            let sizes = Sizes(tally.sizes);
            write!(f, "  Packet sizes in bytes:\n{sizes}")?;
        }
        if let Some(spread) = &tally.spread {
            let spans = Spans(spread);
            write!(f, "{spans}")?;
        }
        Ok(())
    }
}
