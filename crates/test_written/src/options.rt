//! The options of rows, as `calls` describes them.
//!
//! `code` and `states` are options with no name. With `code` the number of the row is the option's code, and the count is the length that
//! the option states. With `states` the number is the length that the option states, and the option has a code that no named option has.
//! With both the option has as many bytes as the count says.

use crate::calls::{Call, short};
use pcap_blocks::{
    CustomBinaryOption, CustomUtf8Option, EnhancedPacketOption, InterfaceDescriptionOption,
    InterfaceStatisticsOption, NameResolutionOption, PacketOption, SectionHeaderOption,
    UnknownOption,
};
use pcap_core::CowBytes;
use std::alloc::{AllocError, Global};

/// Returns a list of an option that can be written and the one of a row, or no options if the row has none.
pub(crate) fn listed<T: Drop>(
    alloc: Global,
    good: T,
    option: Option<T>,
) -> Result<Vec<T>, AllocError> {
    let mut list = Vec::new(alloc);
    if let Some(option) = option {
        list.push(good)?;
        list.push(option)?;
    }
    Ok(list)
}

impl<'a> Call<'a> {
    // Returns the option of `code` or `states`. With `states` it has the code `unnamed`.
    fn unknown(self, unnamed: u32) -> UnknownOption<'a> {
        let (code, length) = match self.what {
            "code" => (self.number, self.count),
            _ => (unnamed, self.number),
        };
        UnknownOption::new(short(code), short(length), self.value())
    }

    // Returns an empty custom string with the number of the row as its code.
    fn custom_text(self) -> CustomUtf8Option<'a> {
        CustomUtf8Option::new(short(self.number), 0, "")
    }

    // Returns custom bytes with the number of the row as their code.
    fn custom_bytes(self) -> CustomBinaryOption<'a> {
        CustomBinaryOption::new(short(self.number), 0x01020304, self.value())
    }

    // Returns the bytes of an option.
    fn bytes(self) -> CowBytes<'a> {
        CowBytes::Borrowed(self.value())
    }
}

// Each of these returns the option of a row, or None if it has none.

pub(crate) fn section_option<'a>(call: Call<'a>) -> Option<SectionHeaderOption<'a>> {
    Some(match call.what {
        "code" | "states" => SectionHeaderOption::Unknown(call.unknown(5)),
        "custom-text" => SectionHeaderOption::CustomUtf8(call.custom_text()),
        "custom-bytes" => SectionHeaderOption::CustomBinary(call.custom_bytes()),
        "hardware" => SectionHeaderOption::Hardware(call.text()),
        "system" => SectionHeaderOption::OS(call.text()),
        _ => return None,
    })
}

pub(crate) fn interface_option<'a>(call: Call<'a>) -> Option<InterfaceDescriptionOption<'a>> {
    Some(match call.what {
        "code" | "states" => InterfaceDescriptionOption::Unknown(call.unknown(16)),
        "custom-text" => InterfaceDescriptionOption::CustomUtf8(call.custom_text()),
        "custom-bytes" => InterfaceDescriptionOption::CustomBinary(call.custom_bytes()),
        "ipv4" => InterfaceDescriptionOption::IfIpv4Addr(call.bytes()),
        "ipv6" => InterfaceDescriptionOption::IfIpv6Addr(call.bytes()),
        "mac" => InterfaceDescriptionOption::IfMacAddr(call.bytes()),
        "filter" => InterfaceDescriptionOption::IfFilter(call.bytes()),
        _ => return None,
    })
}

pub(crate) fn packet_option<'a>(call: Call<'a>) -> Option<PacketOption<'a>> {
    Some(match call.what {
        "code" | "states" => PacketOption::Unknown(call.unknown(4)),
        "custom-text" => PacketOption::CustomUtf8(call.custom_text()),
        "custom-bytes" => PacketOption::CustomBinary(call.custom_bytes()),
        "hash" => PacketOption::Hash(call.bytes()),
        _ => return None,
    })
}

pub(crate) fn enhanced_option<'a>(call: Call<'a>) -> Option<EnhancedPacketOption<'a>> {
    Some(match call.what {
        "code" | "states" => EnhancedPacketOption::Unknown(call.unknown(5)),
        "custom-text" => EnhancedPacketOption::CustomUtf8(call.custom_text()),
        "custom-bytes" => EnhancedPacketOption::CustomBinary(call.custom_bytes()),
        "hash" => EnhancedPacketOption::Hash(call.bytes()),
        "comment" => EnhancedPacketOption::Comment(call.text()),
        _ => return None,
    })
}

pub(crate) fn name_option<'a>(call: Call<'a>) -> Option<NameResolutionOption<'a>> {
    Some(match call.what {
        "code" | "states" => NameResolutionOption::Unknown(call.unknown(5)),
        "custom-text" => NameResolutionOption::CustomUtf8(call.custom_text()),
        "custom-bytes" => NameResolutionOption::CustomBinary(call.custom_bytes()),
        "server-ipv4" => NameResolutionOption::NsDnsIpv4Addr(call.bytes()),
        "server-ipv6" => NameResolutionOption::NsDnsIpv6Addr(call.bytes()),
        _ => return None,
    })
}

pub(crate) fn statistics_option<'a>(call: Call<'a>) -> Option<InterfaceStatisticsOption<'a>> {
    Some(match call.what {
        "code" | "states" => InterfaceStatisticsOption::Unknown(call.unknown(9)),
        "custom-text" => InterfaceStatisticsOption::CustomUtf8(call.custom_text()),
        "custom-bytes" => InterfaceStatisticsOption::CustomBinary(call.custom_bytes()),
        "comment" => InterfaceStatisticsOption::Comment(call.text()),
        _ => return None,
    })
}
