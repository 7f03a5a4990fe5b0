//! Options of PcapNg blocks and name records: their values, lists of options, and lookups by code.
//!
//! The format is that of the IETF draft draft-ietf-opsawg-pcapng; names in quotes are its sections. A list of options
//! ends at its end-of-options option (code 0), or without one where no byte is left ('Options'). Lengths are in bytes.
#![tactic(auto)]

mod enhanced_option;
mod hardware_address;
mod held;
mod interface_option;
mod kinds;
pub mod laws;
mod name_option;
mod names;
mod options;
mod owned;
mod packet_option;
mod record;
mod records;
mod refusal;
mod rows;
mod section_option;
mod statistics_option;
mod values;

pub use enhanced_option::EnhancedPacketOption;
pub use hardware_address::HardwareAddress;
pub use held::{Held, HoldsEntry, first_number, first_string, first_unknown};
pub use interface_option::InterfaceDescriptionOption;
pub use name_option::NameResolutionOption;
pub use names::str_from_u8_null_terminated;
pub use options::{
    CustomBinaryOption, CustomUtf8Option, ListedOption, PcapNgOption, UnknownOption,
    options_from_slice,
};
pub use owned::{IntoStatic, each_into_static};
pub use packet_option::PacketOption;
pub use record::{Ipv4Record, Ipv6Record, Record, UnknownRecord};
pub use records::records_from_slice;
pub use refusal::Refusal;
pub use section_option::SectionHeaderOption;
pub use statistics_option::InterfaceStatisticsOption;
