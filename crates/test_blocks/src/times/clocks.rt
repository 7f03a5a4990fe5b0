//! Clocks with units and offsets, and the clocks of interfaces.

use byteorder::BigEndian;
use pcap_blocks::{Clock, InterfaceDescriptionBlock, TimeUnit, Timestamp};
use std::alloc::Global;
use std::test::*;
use test_support::rows::bytes;

// Checks rows: the exponent of 10 of a unit, an offset, how many units, and the time.
#[test]
fn offsets(rt: HostRuntime) {
    for (exponent, offset, units, seconds, nanoseconds) in [
        (6u8, 0i64, 1_500_000u64, 1i128, 500_000_000u32),
        (6, 10, 1_500_000, 11, 500_000_000),
        (6, -1, 1_500_000, 0, 500_000_000),
        (6, -2, 1_500_000, -1, 500_000_000),
        (0, i64::MIN, 0, -9_223_372_036_854_775_808, 0),
        (0, i64::MAX, u64::MAX, 27_670_116_110_564_327_422, 0),
    ] {
        let clock = Clock {
            unit: TimeUnit::Decimal(exponent),
            offset,
        };
        let time = Timestamp {
            seconds,
            nanoseconds,
        };
        assert_eq!(rt;
            clock.timestamp(units),
            time,
            "{units} of {exponent} and {offset}"
        );
    }
}

// Checks that times are ordered from the earliest to the latest, by their seconds first.
#[test]
fn orders(rt: HostRuntime) {
    let times = [
        (-2i128, 999_999_999u32),
        (-1, 0),
        (-1, 1),
        (0, 0),
        (0, 999_999_999),
        (1, 0),
        (18_446_744_073_709_551_616, 0),
    ];
    for (later, (seconds, nanoseconds)) in times.into_iter().enumerate() {
        let time = Timestamp {
            seconds,
            nanoseconds,
        };
        for (earlier, (seconds, nanoseconds)) in times.into_iter().enumerate() {
            let other = Timestamp {
                seconds,
                nanoseconds,
            };
            assert_eq!(rt; other < time, earlier < later, "{earlier} and {later}");
            assert_eq!(rt; other == time, earlier == later, "{earlier} and {later}");
        }
    }
}

// How many units the time of a packet has.
const UNITS: u64 = 1_577_934_245_123_456;

// Returns whether an interface with these options has this clock, and its units give this time.
fn has_clock(alloc: Global, options: &str, clock: Clock, time: Timestamp) -> Result<bool, Fail> {
    let digits = format!(in alloc; "0001 0000 00040000 {options}")?;
    let body = bytes(alloc, digits.as_str())?;
    match &InterfaceDescriptionBlock::from_slice::<BigEndian>(alloc, body.as_slice()) {
        Ok((_, interface)) => Ok(interface.clock() == clock && interface.timestamp(UNITS) == time),
        Err(_) => Ok(false),
    }
}

// Checks rows: the options of an interface, their clock, and the time of 1577934245123456 units.
#[test]
fn clocks_of_interfaces(rt: HostRuntime) -> Result<(), Fail> {
    for (options, unit, offset, seconds, nanoseconds) in [
        (
            "",
            TimeUnit::Decimal(6),
            0i64,
            1_577_934_245i128,
            123_456_000u32,
        ),
        (
            "0009 0001 09000000",
            TimeUnit::Decimal(9),
            0,
            1_577_934,
            245_123_456,
        ),
        (
            "0009 0001 09000000 0009 0001 03000000",
            TimeUnit::Decimal(9),
            0,
            1_577_934,
            245_123_456,
        ),
        (
            "0009 0001 8a000000",
            TimeUnit::Binary(10),
            0,
            1_540_951_411_253,
            375_000_000,
        ),
        (
            "000e 0008 0000000000000e10",
            TimeUnit::Decimal(6),
            3600,
            1_577_937_845,
            123_456_000,
        ),
        (
            "000e 0008 ffffffffffffffff 000e 0008 0000000000000001 0000 0000",
            TimeUnit::Decimal(6),
            -1,
            1_577_934_244,
            123_456_000,
        ),
        (
            "000a 0004 00000e10 0009 0001 00000000",
            TimeUnit::Decimal(0),
            0,
            1_577_934_245_123_456,
            0,
        ),
    ] {
        let clock = Clock { unit, offset };
        let time = Timestamp {
            seconds,
            nanoseconds,
        };
        assert!(rt; has_clock(rt.alloc(), options, clock, time)?, "{options}");
    }
    Ok(())
}
