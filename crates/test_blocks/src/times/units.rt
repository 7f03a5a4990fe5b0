//! Units of time.

use pcap_times::TimeUnit;
use std::test::*;

#[test]
fn bytes_of_units(rt: HostRuntime) {
    for (byte, unit) in [
        (0u8, TimeUnit::Decimal(0)),
        (6, TimeUnit::Decimal(6)),
        (127, TimeUnit::Decimal(127)),
        (128, TimeUnit::Binary(0)),
        (138, TimeUnit::Binary(10)),
        (255, TimeUnit::Binary(127)),
    ] {
        assert_eq!(rt; TimeUnit::from_byte(byte), unit, "at {byte}");
    }
}

// Checks rows: the byte of a unit, how many units, and the seconds and nanoseconds.
#[test]
fn seconds_and_nanoseconds(rt: HostRuntime) {
    for (byte, units, seconds, nanoseconds) in [
        (
            6u8,
            1_577_934_245_123_456u64,
            1_577_934_245u64,
            123_456_000u32,
        ),
        (9, 1_577_934_245_123_456_789, 1_577_934_245, 123_456_789),
        (0, 5, 5, 0),
        (0, u64::MAX, u64::MAX, 0),
        (19, u64::MAX, 1, 844_674_407),
        (20, u64::MAX, 0, 184_467_440),
        (28, u64::MAX, 0, 1),
        (28, 9_999_999_999_999_999_999, 0, 0),
        (29, u64::MAX, 0, 0),
        (127, u64::MAX, 0, 0),
        (128, 7, 7, 0),
        (138, 1536, 1, 500_000_000),
        (138, 1025, 1, 976_562),
        (158, 1, 0, 0),
        (158, 2, 0, 1),
        (158, 3_758_096_384, 3, 500_000_000),
        (191, u64::MAX, 1, 999_999_999),
        (191, 9_223_372_036_854_775_808, 1, 0),
        (192, u64::MAX, 0, 999_999_999),
        (192, 9_223_372_036_854_775_808, 0, 500_000_000),
        (221, u64::MAX, 0, 1),
        (222, u64::MAX, 0, 0),
        (255, u64::MAX, 0, 0),
    ] {
        let split = TimeUnit::from_byte(byte).split(units);
        assert_eq!(rt; split, (seconds, nanoseconds), "{units} of {byte}");
    }
}
