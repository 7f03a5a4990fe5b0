//! Counts of packets as JSON.

ghost use Rattle.std.specs.Prelude.{◌≡◌, ℕ, List, option_map, OnOk, IfOk};
ghost use Rattle.serde_json.specs.View.{members_view, view};
ghost use Rattle.pcapfile_shown.specs.Json.{AreCountsOf, duration_in, hundredths_data, in_order_data, instant_in, numbers_data, or_null, rate_in, seconds_data};
ghost use Rattle.pcapfile_shown.specs.Json.{spread_data, TellsSpread, with_amounts, with_rates, with_times};

use crate::rate::{
    Hundredths, Seconds, duration_of, hundredths_of, hundredths_per_second, seconds_since_1970,
};
use pcap_file::pcapng::Timestamp;
use pcapfile_info::{Spread, Tally};
use serde_json::{Map, Value, push, put};
use std::alloc::{AllocError, Global};

// Returns an array of these numbers, in order.
#[tactic(auto, using(crate::proofs::Numbers::numbers_more))]
fn numbers(alloc: Global, counts: &[u64]) -> Result<Value, AllocError>
    ensures { IfOk result (λ v. view v ≡ numbers_data counts.now) }
{
    let mut values = Vec::new(alloc);
    for count in counts.iter() {
        push(&mut values, Value::from(*count))?;
    }
    Ok(Value::Array(values))
}

fn seconds_or_null(alloc: Global, time: Option<Seconds>) -> Result<Value, AllocError>
    ensures { IfOk result (λ v. view v ≡ or_null seconds_data (option_map (λ s. s.0) time)) }
{
    match time {
        None => Ok(Value::Null),
        Some(time) => Ok(Value::String(time.to_string(alloc)?)),
    }
}

fn hundredths_or_null(alloc: Global, hundredths: Option<Hundredths>) -> Result<Value, AllocError>
    ensures { IfOk result (λ v. view v ≡ or_null hundredths_data (option_map (λ h. h.0) hundredths)) }
{
    match hundredths {
        None => Ok(Value::Null),
        Some(hundredths) => Ok(Value::String(hundredths.to_string(alloc)?)),
    }
}

// Returns the time from 1970 to this time, if there is one.
fn seconds_at(time: Option<Timestamp>) -> Option<Seconds>
    ensures { option_map (λ s. s.0) result ≡ instant_in time }
{
    match time {
        None => None,
        Some(time) => seconds_since_1970(time),
    }
}

/// Returns the time from the earliest to the latest of these packets.
pub(crate) fn duration_of_all(tally: &Tally) -> Option<Seconds>
    ensures { option_map (λ s. s.0) result ≡ duration_in tally.now }
{
    match (tally.earliest, tally.latest) {
        (Some(earliest), Some(latest)) => duration_of(earliest, latest),
        _ => None,
    }
}

/// Returns the hundredths of a unit per second, if the duration is known.
pub(crate) fn rate_of(count: u64, duration: Option<Seconds>) -> Option<Hundredths>
    ensures { option_map (λ h. h.0) result ≡ rate_in count (option_map (λ s. s.0) duration) }
{
    match duration {
        None => None,
        Some(duration) => hundredths_per_second(count, duration),
    }
}

// Returns whether the times of these packets are in order. Null if no packet has a time.
fn order_or_null(tally: &Tally) -> Value
    ensures { view result ≡ in_order_data tally.now.latest tally.now.in_order }
{
    match tally.latest {
        None => Value::Null,
        Some(_) => Value::Bool(tally.in_order),
    }
}

// Puts the number of packets and their bytes.
fn put_amounts(map: &mut Map<String, Value>, alloc: Global, tally: &Tally) -> Result<(), AllocError>
    ensures { OnOk result (members_view map.new.entries ≡ with_amounts tally.now (members_view map.old.entries)) }
{
    let average = hundredths_of(tally.original, tally.packets);
    let sizes = numbers(alloc, &tally.sizes)?;
    let average = hundredths_or_null(alloc, average)?;
    put(map, alloc, "packets", Value::from(tally.packets))?;
    put(map, alloc, "original", Value::from(tally.original))?;
    put(map, alloc, "stored", Value::from(tally.stored))?;
    put(map, alloc, "average", average)?;
    put(map, alloc, "sizes", sizes)
}

// Puts the earliest and the latest time, the time between them, and whether times are in order.
fn put_times(map: &mut Map<String, Value>, alloc: Global, tally: &Tally) -> Result<(), AllocError>
    ensures { OnOk result (members_view map.new.entries ≡ with_times tally.now (members_view map.old.entries)) }
{
    let earliest = seconds_or_null(alloc, seconds_at(tally.earliest))?;
    let latest = seconds_or_null(alloc, seconds_at(tally.latest))?;
    let duration = seconds_or_null(alloc, duration_of_all(tally))?;
    put(map, alloc, "earliest", earliest)?;
    put(map, alloc, "latest", latest)?;
    put(map, alloc, "duration", duration)?;
    put(map, alloc, "in_order", order_or_null(tally))
}

// Puts the packets and bytes per second.
fn put_rates(map: &mut Map<String, Value>, alloc: Global, tally: &Tally) -> Result<(), AllocError>
    ensures { OnOk result (members_view map.new.entries ≡ with_rates tally.now (members_view map.old.entries)) }
{
    let duration = duration_of_all(tally);
    let packets = hundredths_or_null(alloc, rate_of(tally.packets, duration))?;
    let bytes = hundredths_or_null(alloc, rate_of(tally.original, duration))?;
    put(map, alloc, "packets_per_second", packets)?;
    put(map, alloc, "bytes_per_second", bytes)
}

// Returns the number of packets in each span of a row, from the first to the last.
#[tactic(auto, using(crate::proofs::Numbers::counts_more, crate::proofs::Numbers::counts_all))]
fn counts(alloc: Global, spread: &Spread) -> Result<Value, AllocError>
    ensures { IfOk result (λ v. (counts : List ℕ) × AreCountsOf spread.now counts × (view v ≡ numbers_data counts)) }
{
    let mut values = Vec::new(alloc);
    for place in 0..spread.last - spread.first + 1 {
        push(
            &mut values,
            Value::from(spread.packets_in(spread.first + place)),
        )?;
    }
    Ok(Value::Array(values))
}

// Returns the spread of packets over time as an object. It has the width of a span in nanoseconds, the number of the first span
// counted from 1970, and the number of packets in each span.
fn over_time(alloc: Global, spread: &Spread) -> Result<Value, AllocError>
    ensures { IfOk result (λ v. (counts : List ℕ) × AreCountsOf spread.now counts × (view v ≡ spread_data counts spread.now)) }
{
    let packets = counts(alloc, spread)?;
    let mut map = Map::new(alloc);
    put(&mut map, alloc, "width", Value::from(spread.width))?;
    put(&mut map, alloc, "first", Value::from(spread.first))?;
    put(&mut map, alloc, "packets", packets)?;
    Ok(Value::Object(map))
}

/// Puts the counts of packets.
pub(crate) fn put_figures(
    map: &mut Map<String, Value>,
    alloc: Global,
    tally: &Tally,
) -> Result<(), AllocError>
    ensures { OnOk result (members_view map.new.entries ≡ with_rates tally.now (with_times tally.now (with_amounts tally.now (members_view map.old.entries)))) }
{
    put_amounts(map, alloc, tally)?;
    put_times(map, alloc, tally)?;
    put_rates(map, alloc, tally)
}

/// Returns the spread of packets over time, or null if no packet has a time.
pub(crate) fn spread_or_null(alloc: Global, spread: &Option<Spread>) -> Result<Value, AllocError>
    ensures { IfOk result (λ v. TellsSpread spread.now (view v)) }
{
    match spread {
        None => Ok(Value::Null),
        Some(spread) => over_time(alloc, spread),
    }
}
