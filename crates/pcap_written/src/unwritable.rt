//! The reasons why a block can't be written.

ghost use Rattle.std.specs.Prelude.{◌≡◌};
ghost use Rattle.pcap_written.specs.Flaws.{flaw_message};
ghost use Rattle.pcap_written.specs.Puts.{IsShownAs};

use pcap_core::PcapError;
use pcap_core::rules::Rule;
use std::alloc::AllocError;

/// A reason why a block isn't written: a reader of its text would not get the same block.
#[derive(Clone, Copy, Debug, PartialEq, Eq)]
pub enum Unwritable {
    /// An option's value has 65536 bytes or more.
    OptionTooLong,
    /// An option has the code of the mark that ends a list, or a code whose options hold values of another kind.
    OptionMisplaced,
    /// An unknown option states a length that differs from that of its value.
    OptionLengthDiffers,
    /// The text would break a rule of the formats.
    Breaks(Rule),
    /// A packet states a stored length that differs from the number of its bytes.
    CapturedLengthDiffers,
    /// The number of an interface's link type is 65536 or more.
    LinkTooLarge,
    /// An unknown link type has the number of a known one.
    LinkMisnamed,
    /// The end of the records is among them.
    EndMisplaced,
    /// An address doesn't have the number of bytes of its record's type.
    AddressLengthDiffers,
    /// A name has a zero byte, which ends it.
    NameWithZero,
    /// A record's value has 65536 bytes or more.
    RecordTooLong,
    /// An unknown record has the type of a known one.
    RecordMisnamed,
    /// An unknown record states a length that differs from that of its value.
    RecordLengthDiffers,
    /// An unknown block has the type number of a known one.
    TypeMisnamed,
    /// An unknown block states a length that differs from the number of its bytes.
    BlockLengthDiffers,
    /// A block has 2^32 bytes or more.
    BlockTooLong,
    /// A block refers to an interface that its section has not described.
    InterfaceMissing,
    /// A section already has 2^32 - 1 interfaces.
    InterfacesFull,
    /// A block of bytes has another byte order than its section, or a section has another one than its magic number names.
    OrderDiffers,
}

impl Unwritable {
    /// Returns the message for this reason.
    pub fn message(self) -> &'static str
        ensures { result.now ≡ flaw_message self }
    {
        match self {
            Unwritable::OptionTooLong => "Option: value length > 65535",
            Unwritable::OptionMisplaced => "Option: value of another code",
            Unwritable::OptionLengthDiffers => "UnknownOption: length != value.len()",
            Unwritable::Breaks(rule) => rule.text(),
            Unwritable::CapturedLengthDiffers => "EnhancedPacketBlock: captured_len != data.len()",
            Unwritable::LinkTooLarge => "InterfaceDescriptionBlock: linktype > 65535",
            Unwritable::LinkMisnamed => "InterfaceDescriptionBlock: linktype has a name",
            Unwritable::EndMisplaced => "NameResolutionBlock: nrb_record_end among the records",
            Unwritable::AddressLengthDiffers => "NameResolutionBlock: address of another length",
            Unwritable::NameWithZero => "NameResolutionBlock: name with a zero byte",
            Unwritable::RecordTooLong => "NameResolutionBlock: Record length > 65535",
            Unwritable::RecordMisnamed => "UnknownRecord: type has a name",
            Unwritable::RecordLengthDiffers => "UnknownRecord: length != value.len()",
            Unwritable::TypeMisnamed => "UnknownBlock: type has a name",
            Unwritable::BlockLengthDiffers => "UnknownBlock: length != value.len()",
            Unwritable::BlockTooLong => "Block: length > 0xFFFFFFFF",
            Unwritable::InterfaceMissing => "Block: interface_id is not described",
            Unwritable::InterfacesFull => "SectionHeader: too many interfaces",
            Unwritable::OrderDiffers => "Block: order of another section",
        }
    }
}

/// The reasons why bytes were not appended.
#[derive(Drop)]
pub enum Unput {
    /// A buffer could not grow.
    Memory(AllocError),
    /// The value can't be written.
    Unfit(Unwritable),
}

impl From<AllocError> for Unput {
    ghost use Rattle.pcap_written.specs.declared.unwritable.Unput.{Unput};

    ghost from_gives = { λ e unput. unput ≡ Unput.Memory e };

    fn from(src: AllocError) -> Unput {
        Unput::Memory(src)
    }
}

impl From<Unwritable> for Unput {
    ghost use Rattle.pcap_written.specs.declared.unwritable.Unput.{Unput};

    ghost from_gives = { λ flaw unput. unput ≡ Unput.Unfit flaw };

    fn from(src: Unwritable) -> Unput {
        Unput::Unfit(src)
    }
}

impl From<Unput> for PcapError {
    ghost from_gives = { IsShownAs };

    fn from(src: Unput) -> PcapError {
        match src {
            Unput::Memory(e) => PcapError::OutOfMemory(e),
            Unput::Unfit(flaw) => PcapError::InvalidField(flaw.message()),
        }
    }
}
