//! Units of time.

ghost use Rattle.std.specs.Prelude.{◌≡◌, ◌^◌, ◌<◌, SomeIff};
ghost use Rattle.pcap_times.specs.Times.{unit_of, units_in_second, nanoseconds_in, IsSplit};

/// The number of nanoseconds in a second.
const BILLION: u128 = 1_000_000_000;

/// The timestamp resolution of an interface: the unit in which it counts time ('Interface Description Block', if_tsresol).
#[derive(Clone, Copy, Debug, PartialEq, Eq)]
pub enum TimeUnit {
    /// A unit of 10 to the power of minus this number, in seconds.
    Decimal(u8),
    /// A unit of 2 to the power of minus this number, in seconds.
    Binary(u8),
}

impl TimeUnit {
    /// A microsecond, the unit of an interface without if_tsresol.
    pub const MICROSECOND: TimeUnit = TimeUnit::Decimal(6);

    /// Returns the unit that the byte of an if_tsresol names. It is a power of 2 if the highest bit is set, or else a power
    /// of 10. The other seven bits are the exponent.
    pub fn from_byte(byte: u8) -> Self
        ensures { result ≡ unit_of byte }
    {
        if byte < 128 {
            TimeUnit::Decimal(byte)
        } else {
            TimeUnit::Binary(byte - 128)
        }
    }

    /// Returns the whole seconds in this many units, and the whole nanoseconds after them. Fractions of a nanosecond are
    /// dropped. Microseconds and nanoseconds need no 128-bit division.
    #[inline]
    pub fn split(self, ticks: u64) -> (u64, u32)
        ensures { IsSplit self ticks result.0 result.1 }
    {
        match self {
            TimeUnit::Decimal(6) => (ticks / 1_000_000, (ticks % 1_000_000) as u32 * 1000),
            TimeUnit::Decimal(9) => (ticks / 1_000_000_000, (ticks % 1_000_000_000) as u32),
            TimeUnit::Decimal(_) | TimeUnit::Binary(_) => {
                let nanoseconds = self.nanoseconds(ticks);
                (
                    (nanoseconds / BILLION) as u64,
                    (nanoseconds % BILLION) as u32,
                )
            }
        }
    }

    // Returns the whole nanoseconds in this many units.
    #[tactic(auto, using(crate::proofs::Units::some_units))]
    fn nanoseconds(self, ticks: u64) -> u128
        ensures { result ≡ nanoseconds_in self ticks }
    {
        match self.units_in_second() {
            Some(units) => u128::from(ticks) * BILLION / units,
            None => 0,
        }
    }

    // Returns the number of units in a second, or None if it is 2^128 or more.
    fn units_in_second(self) -> Option<u128>
        ensures { SomeIff result (units_in_second self < 2 ^ 128) (units_in_second self) }
    {
        match self {
            TimeUnit::Decimal(exponent) => 10u128.checked_pow(u32::from(exponent)),
            TimeUnit::Binary(exponent) => 2u128.checked_pow(u32::from(exponent)),
        }
    }
}
