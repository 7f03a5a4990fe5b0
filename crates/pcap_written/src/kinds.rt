//! The options of each kind of block, by how they are written.

ghost use Rattle.pcap_options.specs.EnhancedOption.{enhanced_packet, enhanced_entry};
ghost use Rattle.pcap_options.specs.InterfaceOption.{interface_description, interface_entry};
ghost use Rattle.pcap_options.specs.StatisticsOption.{interface_statistics, statistics_entry};
ghost use Rattle.pcap_options.specs.NameOption.{name_resolution, name_entry};
ghost use Rattle.pcap_options.specs.PacketOption.{packet_kind, packet_entry};
ghost use Rattle.pcap_options.specs.SectionOption.{section_header, section_entry};

use crate::form::Form;
use crate::options::WrittenOption;
use pcap_core::rules::Rule;
use pcap_options::{
    EnhancedPacketOption, InterfaceDescriptionOption, InterfaceStatisticsOption,
    NameResolutionOption, PacketOption, SectionHeaderOption, enhanced_options, interface_options,
    name_options, packet_options, section_options, statistics_options,
};

// Returns the code and the form of an option, by the rows of its kind's table.
macro_rules! coded_option {
    ($option:tt; $kind:ident; $($name:ident $number:literal $shape:ident $(($($of:tt)*))?;)*) => {
        match $option {
            $(Self::$name(value) => Some(($number, form!($shape value $($($of)*)?))),)*
            Self::CustomBinary(option) => match option.code() {
                code @ (2989 | 19373) => Some((code, Form::Custom(option.pen(), option.value()))),
                _ => None,
            },
            Self::CustomUtf8(option) => match option.code() {
                code @ (2988 | 19372) => Some((code, Form::Custom(option.pen(), option.value().as_bytes()))),
                _ => None,
            },
            Self::Unknown(option) => match option.code() {
                0 $(| $number)* | 2988 | 2989 | 19372 | 19373 => None,
                code => Some((code, Form::Unknown(option.length(), option.value()))),
            },
        }
    };
}

macro_rules! form {
    (string $text:ident) => { Form::Bytes($text.as_bytes()) };
    (bytes $bytes:ident) => { Form::Bytes($bytes.as_slice()) };
    (some_bytes $bytes:ident $empty:ident) => { Form::Filled(Rule::$empty, $bytes.as_slice()) };
    (fixed_bytes $bytes:ident $n:literal $wrong:ident) => { Form::Sized($n, Rule::$wrong, $bytes.as_slice()) };
    (byte $n:ident $wrong:ident) => { Form::Byte(*$n) };
    (number4 $n:ident $wrong:ident) => { Form::Number32(*$n) };
    (number8 $n:ident $wrong:ident) => { Form::Number64(*$n) };
    (first_number $n:ident) => { Form::Number64(*$n) };
    (first_time $n:ident) => { Form::Time(*$n) };
}

impl<'a> WrittenOption for SectionHeaderOption<'a> {
    ghost kind = { section_header };

    ghost view = { section_entry };

    fn coded(&self) -> Option<(u16, Form<'_>)> {
        section_options!(coded_option self)
    }
}

impl<'a> WrittenOption for InterfaceDescriptionOption<'a> {
    ghost kind = { interface_description };

    ghost view = { interface_entry };

    fn coded(&self) -> Option<(u16, Form<'_>)> {
        interface_options!(coded_option self)
    }
}

impl<'a> WrittenOption for PacketOption<'a> {
    ghost kind = { packet_kind };

    ghost view = { packet_entry };

    fn coded(&self) -> Option<(u16, Form<'_>)> {
        packet_options!(coded_option self)
    }
}

impl<'a> WrittenOption for NameResolutionOption<'a> {
    ghost kind = { name_resolution };

    ghost view = { name_entry };

    fn coded(&self) -> Option<(u16, Form<'_>)> {
        name_options!(coded_option self)
    }
}

impl<'a> WrittenOption for InterfaceStatisticsOption<'a> {
    ghost kind = { interface_statistics };

    ghost view = { statistics_entry };

    fn coded(&self) -> Option<(u16, Form<'_>)> {
        statistics_options!(coded_option self)
    }
}

impl<'a> WrittenOption for EnhancedPacketOption<'a> {
    ghost kind = { enhanced_packet };

    ghost view = { enhanced_entry };

    fn coded(&self) -> Option<(u16, Form<'_>)> {
        enhanced_options!(coded_option self)
    }
}
