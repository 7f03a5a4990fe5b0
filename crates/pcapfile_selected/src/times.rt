//! The times that users give as arguments.

ghost use Rattle.std.specs.Prelude.{◌≡◌, pos, ◌-ℤ◌};
ghost use Rattle.pcapfile_selected.specs.Moments.{earlier, is_after_first, later, nanoseconds_since, time_at, time_with};

use crate::ranges::number;
use jiff::civil::DateTime;
use jiff::tz::{SystemTimeZone, TimeZone, TimeZoneDatabase};
use jiff::{SignedDuration, Timestamp as Instant};
use pcap_file::pcapng::Timestamp;
use pcapfile_cut::Shift;
use std::alloc::Global;
use std::str;

/// The nanoseconds in a second.
const SECOND: u64 = 1_000_000_000;

/// The seconds in a year of 365 days.
const YEAR: i128 = 365 * 86_400;

/// The most bytes of a time in the year 9999 that `last_instant` accepts.
const LONGEST: usize = 64;

/// A time that a user names.
#[derive(Clone, Copy)]
pub enum Moment {
    /// This time.
    At(Timestamp),
    /// The time this many seconds and nanoseconds after the first packet that has a time.
    AfterFirst(Timestamp),
    /// The time this many seconds and nanoseconds before the latest time of a packet.
    BeforeLatest(Timestamp),
}

/// The zone of times that name none.
#[derive(Drop)]
pub struct Zone {
    zones: TimeZoneDatabase,
    /// The zone that the system names; `None` is UTC.
    system: Option<SystemTimeZone>,
}

impl Zone {
    /// Returns UTC.
    pub fn utc(alloc: Global) -> Zone {
        Zone {
            zones: TimeZoneDatabase::new(alloc),
            system: None,
        }
    }

    /// Returns the zone that `TZ` or else `/etc/localtime` names. `None` if it can't be read.
    pub fn local(rt: &HostRuntime) -> Option<Zone> {
        let system = SystemTimeZone::read(rt).ok()?;
        let zones = TimeZoneDatabase::from_env(rt).ok()?;
        let zone = Zone {
            zones,
            system: Some(system),
        };
        if zone.time_zone().is_none() {
            return None;
        }
        Some(zone)
    }

    fn time_zone(&self) -> Option<TimeZone<'_>> {
        match &self.system {
            None => Some(TimeZone::UTC),
            Some(system) => system.time_zone(&self.zones).ok(),
        }
    }

    // Returns the instant at which the clocks of the zone show this date and time.
    fn instant(&self, text: &str) -> Option<Instant> {
        let shown: DateTime = text.parse().ok()?;
        self.time_zone()?.to_timestamp(shown).ok()
    }
}

impl Moment {
    /// Returns the moment that a text names: a number of seconds since 1970 with at most nine decimal places, a date, a date
    /// and time with a zone or in this one, `+` and a duration after the first packet, or `-` and a duration with units before the
    /// latest packet.
    pub fn of_text(text: &str, zone: &Zone) -> Option<Moment> {
        if let Some(duration) = text.strip_prefix('+') {
            return Some(Moment::AfterFirst(duration_of(duration)?));
        }
        if let Some(time) = seconds(text) {
            return Some(Moment::At(time));
        }
        if let Some(time) = time_of(text, zone) {
            return Some(Moment::At(time));
        }
        let duration = text.strip_prefix('-')?;
        Some(Moment::BeforeLatest(duration_of(duration)?))
    }

    /// Returns the time, if the first packet with a time has the time `first`, and the latest time of a packet is `latest`.
    pub(crate) fn time(self, first: Timestamp, latest: Timestamp) -> Timestamp
        ensures { result ≡ time_at self first latest }
    {
        match self {
            Moment::At(time) => time,
            Moment::AfterFirst(duration) => later(first, duration),
            Moment::BeforeLatest(duration) => earlier(latest, duration),
        }
    }

    /// Returns whether the moment depends on the time of the first packet.
    pub(crate) fn is_after_first(self) -> bool
        ensures { result ≡ is_after_first self }
    {
        match self {
            Moment::AfterFirst(_) => true,
            Moment::At(_) | Moment::BeforeLatest(_) => false,
        }
    }
}

/// Returns the change of times that a text names: a number of seconds with at most nine decimal places, or numbers with units such as
/// `1h 30m`, after `-` for earlier times. It has at most 2^64 - 1 nanoseconds, some 584 years.
pub fn shift_of_text(text: &str) -> Option<Shift> {
    match text.strip_prefix('-') {
        Some(duration) => Some(Shift::Earlier(nanoseconds_in(duration)?)),
        None => {
            let duration = text.strip_prefix('+').unwrap_or(text);
            Some(Shift::Later(nanoseconds_in(duration)?))
        }
    }
}

// Returns the nanoseconds of a duration.
fn nanoseconds_in(text: &str) -> Option<u64> {
    let duration = duration_of(text)?;
    let seconds = u64::try_from(duration.seconds).ok()?;
    let nanoseconds = seconds.checked_mul(SECOND)?;
    nanoseconds.checked_add(u64::from(duration.nanoseconds))
}

/// Returns a time as nanoseconds since 1970: 0 for an earlier time, and 2^64 - 1 for a time that is too late.
pub(crate) fn nanoseconds_since(time: Timestamp) -> u64
    ensures { result ≡ nanoseconds_since time }
{
    if time.seconds < 0 {
        return 0;
    }
    let seconds = u64::try_from(time.seconds).unwrap_or(u64::MAX);
    seconds
        .saturating_mul(SECOND)
        .saturating_add(u64::from(time.nanoseconds))
}

// Returns the time in the form of packets' times.
fn stamp(time: Instant) -> Timestamp {
    let seconds = i128::from(time.as_second());
    let nanoseconds = time.subsec_nanosecond();
    if nanoseconds >= 0 {
        return Timestamp {
            seconds,
            nanoseconds: nanoseconds.unsigned_abs(),
        };
    }
    Timestamp {
        seconds: seconds.saturating_sub(1),
        nanoseconds: (SECOND as u32).saturating_sub(nanoseconds.unsigned_abs()),
    }
}

/// Returns the time of so many seconds and nanoseconds. The nanoseconds may be negative, or a second and more.
pub(crate) fn time_with(seconds: i128, nanoseconds: i64) -> Timestamp
    ensures { result ≡ time_with seconds nanoseconds }
{
    let carried = nanoseconds.div_euclid(SECOND as i64);
    let rest = nanoseconds.rem_euclid(SECOND as i64);
    Timestamp {
        seconds: seconds.saturating_add(i128::from(carried)),
        nanoseconds: rest.unsigned_abs() as u32,
    }
}

// Returns the time that is later than this one by a duration.
fn later(time: Timestamp, duration: Timestamp) -> Timestamp
    ensures { result ≡ later time duration }
{
    let nanoseconds = i64::from(time.nanoseconds) + i64::from(duration.nanoseconds);
    time_with(time.seconds.saturating_add(duration.seconds), nanoseconds)
}

// Returns the time that is earlier than this one by a duration.
fn earlier(time: Timestamp, duration: Timestamp) -> Timestamp
    ensures { result ≡ earlier time duration }
{
    let nanoseconds = i64::from(time.nanoseconds) - i64::from(duration.nanoseconds);
    time_with(time.seconds.saturating_sub(duration.seconds), nanoseconds)
}

// Returns a duration: seconds with at most nine decimal places, or numbers with units such as `1h 30m`.
fn duration_of(text: &str) -> Option<Timestamp> {
    if let Some(duration) = unsigned_seconds(text) {
        return Some(duration);
    }
    // A sign is that of the whole text, and is before the duration.
    if text.starts_with('+') || text.starts_with('-') {
        return None;
    }
    let duration: SignedDuration = text.parse().ok()?;
    if duration.is_negative() {
        return None;
    }
    Some(Timestamp {
        seconds: i128::from(duration.as_secs()),
        nanoseconds: duration.subsec_nanos().unsigned_abs(),
    })
}

// Returns a number of seconds, which may be before 1970.
fn seconds(text: &str) -> Option<Timestamp> {
    let Some(text) = text.strip_prefix('-') else {
        return unsigned_seconds(text);
    };
    let before = unsigned_seconds(text)?;
    let whole = before.seconds.saturating_neg();
    if before.nanoseconds == 0 {
        return Some(Timestamp {
            seconds: whole,
            nanoseconds: 0,
        });
    }
    Some(Timestamp {
        seconds: whole.saturating_sub(1),
        nanoseconds: (SECOND as u32).saturating_sub(before.nanoseconds),
    })
}

fn unsigned_seconds(text: &str) -> Option<Timestamp> {
    let (whole, fraction) = match text.split_once('.') {
        None => (number(text)?, 0),
        Some((whole, fraction)) => (number(whole)?, nanoseconds(fraction)?),
    };
    Some(Timestamp {
        seconds: i128::from(whole),
        nanoseconds: fraction,
    })
}

// Returns the nanoseconds that these decimal places make.
fn nanoseconds(digits: &str) -> Option<u32> {
    if digits.len() > 9 {
        return None;
    }
    let mut value = number(digits)?;
    for _ in digits.len()..9 {
        value = value.saturating_mul(10);
    }
    u32::try_from(value).ok()
}

// Returns the time that a date with or without a time of day names.
fn time_of(text: &str, zone: &Zone) -> Option<Timestamp> {
    if let Ok(time) = text.parse::<Instant>() {
        return Some(stamp(time));
    }
    match zone.instant(text) {
        Some(time) => Some(stamp(time)),
        None => last_instant(text, zone),
    }
}

// Returns a time in the year 9999, whose last hours don't fit in an `Instant`. The year before has the same days.
fn last_instant(text: &str, zone: &Zone) -> Option<Timestamp> {
    if !text.starts_with("9999-") || text.len() > LONGEST {
        return None;
    }
    let mut bytes = [0; LONGEST];
    let year_before = &mut bytes[..text.len()];
    year_before.copy_from_slice(text.as_bytes());
    year_before[3] = b'8';
    let year_before = str::from_utf8(year_before).ok()?;
    let same_day = match year_before.parse::<Instant>() {
        Ok(time) => time,
        Err(_) => zone.instant(year_before)?,
    };
    let time = stamp(same_day);
    Some(Timestamp {
        seconds: time.seconds.saturating_add(YEAR),
        nanoseconds: time.nanoseconds,
    })
}
