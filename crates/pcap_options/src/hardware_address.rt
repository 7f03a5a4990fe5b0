//! Views of hardware addresses, which the parser returns as unknown records of type 3 or 4.

ghost use Rattle.std.specs.Prelude.{ℕ, List, MatchOption};
ghost use Rattle.pcap_options.specs.HardwareAddress.{AddressOf};

use crate::record::UnknownRecord;

/// A hardware address and its names ('Name Resolution Block').
#[derive(Clone, Copy, Debug)]
pub struct HardwareAddress<'a> {
    /// The address's bytes.
    pub address: &'a [u8],
    /// The address's names, with a zero byte after each. Read them one by one with `str_from_u8_null_terminated`.
    pub names: &'a [u8],
}

impl UnknownRecord<'_> {
    /// Returns the address of 6 bytes and the names of a record of type 3 (nrb_record_eui48). Returns None for a record
    /// of another type and for a value of fewer bytes.
    pub fn eui48(&self) -> Option<HardwareAddress<'_>>
        ensures { MatchOption result ((address names : List ℕ) → ¬ AddressOf 3 6 self.now address names)
            (λ x. AddressOf 3 6 self.now x.address.now x.names.now) }
    {
        self.hardware(3, 6)
    }

    /// Returns the address of 8 bytes and the names of a record of type 4 (nrb_record_eui64). Returns None for a record
    /// of another type and for a value of fewer bytes.
    pub fn eui64(&self) -> Option<HardwareAddress<'_>>
        ensures { MatchOption result ((address names : List ℕ) → ¬ AddressOf 4 8 self.now address names)
            (λ x. AddressOf 4 8 self.now x.address.now x.names.now) }
    {
        self.hardware(4, 8)
    }

    fn hardware(&self, type_: u16, width: usize) -> Option<HardwareAddress<'_>>
        ensures { MatchOption result ((address names : List ℕ) → ¬ AddressOf type_ width self.now address names)
            (λ x. AddressOf type_ width self.now x.address.now x.names.now) }
    {
        let value = self.value.as_slice();
        if self.type_ != type_ || value.len() < width {
            return None;
        }
        let (address, names) = value.split_at(width);
        Some(HardwareAddress { address, names })
    }
}
