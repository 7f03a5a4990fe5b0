//! The spans of time of a capture's parts.

ghost use Rattle.std.specs.Prelude.{◌≡◌, ◌↔◌, IsTrue};
ghost use Rattle.pcapfile_selected.specs.Spans.{AreSpansOf, BeginsPart, IsTaken, end_of, seconds_between, spans_after, spans_until};

use pcap_file::pcapng::Timestamp;

/// Spans of equal length, one after another. The first begins with the first packet that has a time.
#[derive(Clone, Copy)]
pub struct Spans {
    /// The length of each span, in seconds. 0 counts as 1.
    seconds: u64,
    /// The beginning of the first span, if a packet with a time was read.
    first: Option<Timestamp>,
    /// The end of the part's span, if a packet of the part has a time.
    end: Option<Timestamp>,
}

impl Spans {
    /// Returns spans of this length before any packet was read.
    pub fn new(seconds: u64) -> Spans
        ensures { AreSpansOf seconds result }
    {
        Spans {
            seconds,
            first: None,
            end: None,
        }
    }

    /// Begins the next part.
    pub fn begin(&mut self)
        ensures { BeginsPart self.old self.new }
    {
        self.end = None;
    }

    /// Returns whether the next packet, which has this time, belongs to the part. The part's span is that of its first packet with a time.
    /// Earlier packets belong to the part too.
    pub fn takes(&mut self, time: Option<Timestamp>) -> bool
        ensures takes { IsTrue result ↔ IsTaken self.old time }
        ensures next { self.new ≡ spans_after self.old time }
    {
        let Some(time) = time else {
            return true;
        };
        if let Some(end) = self.end {
            return time < end;
        }
        let first = match self.first {
            None => time,
            Some(first) => first,
        };
        self.first = Some(first);
        self.end = Some(end_of(self.seconds, first, time));
        true
    }
}

// Returns the end of the span with this time, if spans of so many seconds follow one another from `first` on.
fn end_of(length: u64, first: Timestamp, time: Timestamp) -> Timestamp
    ensures { result ≡ end_of length first time }
{
    let spans = spans_until(length, seconds_between(first, time));
    let seconds = spans.saturating_mul(i128::from(length.max(1)));
    Timestamp {
        seconds: first.seconds.saturating_add(seconds),
        nanoseconds: first.nanoseconds,
    }
}

// Returns the whole seconds from one time to another, rounded down.
fn seconds_between(first: Timestamp, time: Timestamp) -> i128
    ensures { result ≡ seconds_between first time }
{
    let begun = i128::from(time.nanoseconds < first.nanoseconds);
    time.seconds
        .saturating_sub(first.seconds)
        .saturating_sub(begun)
}

// Returns the number of spans that precede so many seconds, and the one with them, if each has `length` seconds.
fn spans_until(length: u64, seconds: i128) -> i128
    ensures { result ≡ spans_until length seconds }
{
    let length = i128::from(length.max(1));
    seconds.div_euclid(length).saturating_add(1)
}
