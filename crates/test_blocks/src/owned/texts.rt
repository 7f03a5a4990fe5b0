//! Checks whether texts are owned.

use pcap_blocks::{
    EnhancedPacketOption, InterfaceDescriptionOption, InterfaceStatisticsOption,
    NameResolutionOption, PacketOption, Record, SectionHeaderOption,
};
use std::borrow::CowStr;

pub(crate) fn is_owned(text: &CowStr) -> bool {
    matches!(text, CowStr::Owned(_))
}

pub(crate) fn are_owned(texts: &[CowStr]) -> bool {
    for text in texts {
        if !is_owned(text) {
            return false;
        }
    }
    true
}

// Each of these returns whether a record or an option owns its texts, if it has any.

pub(crate) fn record_owns_texts(record: &Record) -> bool {
    match record {
        Record::Ipv4(record) => are_owned(record.names.as_slice()),
        Record::Ipv6(record) => are_owned(record.names.as_slice()),
        _ => true,
    }
}

pub(crate) fn section_owns_text(option: &SectionHeaderOption) -> bool {
    match option {
        SectionHeaderOption::Comment(text) => is_owned(text),
        SectionHeaderOption::Hardware(text) => is_owned(text),
        SectionHeaderOption::OS(text) => is_owned(text),
        SectionHeaderOption::UserApplication(text) => is_owned(text),
        _ => true,
    }
}

pub(crate) fn interface_owns_text(option: &InterfaceDescriptionOption) -> bool {
    match option {
        InterfaceDescriptionOption::Comment(text) => is_owned(text),
        InterfaceDescriptionOption::IfName(text) => is_owned(text),
        InterfaceDescriptionOption::IfDescription(text) => is_owned(text),
        InterfaceDescriptionOption::IfOs(text) => is_owned(text),
        InterfaceDescriptionOption::IfHardware(text) => is_owned(text),
        _ => true,
    }
}

pub(crate) fn enhanced_owns_text(option: &EnhancedPacketOption) -> bool {
    match option {
        EnhancedPacketOption::Comment(text) => is_owned(text),
        _ => true,
    }
}

pub(crate) fn packet_owns_text(option: &PacketOption) -> bool {
    match option {
        PacketOption::Comment(text) => is_owned(text),
        _ => true,
    }
}

pub(crate) fn statistics_own_text(option: &InterfaceStatisticsOption) -> bool {
    match option {
        InterfaceStatisticsOption::Comment(text) => is_owned(text),
        _ => true,
    }
}

pub(crate) fn name_owns_text(option: &NameResolutionOption) -> bool {
    match option {
        NameResolutionOption::Comment(text) => is_owned(text),
        NameResolutionOption::NsDnsName(text) => is_owned(text),
        _ => true,
    }
}
