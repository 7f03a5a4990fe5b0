//! The rules of the capture formats. Each `InvalidField` has the message of one rule.

ghost use Rattle.std.specs.Prelude.{◌≡◌, Some, IfSome};
ghost use Rattle.pcap_core.specs.Faults.{rule_message};
ghost use Rattle.pcap_core.specs.Rules.{number_of, name_of};

/// A rule of the capture formats. Its number is the one in the table of refusals.
#[derive(Clone, Copy, Debug, PartialEq, Eq)]
pub enum Rule {
    /// V1: a capture's magic number is none of the four known ones.
    CaptureMagic,
    /// V2: a packet record's microseconds, in nanoseconds, do not fit in 32 bits.
    FractionTooLarge,
    /// V3: a packet record's stored length is above 262144 bytes.
    IncludedTooLong,
    /// V4: a packet record's original length is above 262144 bytes.
    OriginalTooLong,
    /// V5: a packet record's stored length is above its original length.
    IncludedPastOriginal,
    /// V6: a section header's magic number is that of neither byte order.
    SectionMagic,
    /// V7: a block's length is not a multiple of 4.
    BlockUnaligned,
    /// V8: a block's length is below 12 bytes.
    BlockTooShort,
    /// V9: the length after a block's body differs from the length before it.
    BlockLengthsDiffer,
    /// V10: the first block is not a section header.
    SectionMissing,
    /// V11: a section header's body is shorter than 16 bytes.
    SectionTooShort,
    /// V12: an interface description's body is shorter than 8 bytes.
    InterfaceTooShort,
    /// V13: the body of an enhanced packet or packet is shorter than 20 bytes.
    EnhancedTooShort,
    /// V14: the data and padding of an enhanced packet or packet extend past the body.
    EnhancedCut,
    /// V15: a simple packet's body is shorter than 4 bytes.
    SimpleTooShort,
    /// V16: the body of an interface statistics block is shorter than 12 bytes.
    StatisticsTooShort,
    /// V17: fewer than 4 bytes are left where an option or the mark that ends a list must begin.
    OptionTooShort,
    /// V18: an option's value and padding extend past the body.
    OptionCut,
    /// V19.1: an interface's IPv4 address and mask are not 8 bytes.
    InterfaceIpv4Length,
    /// V19.2: an interface's IPv6 address and prefix are not 17 bytes.
    InterfaceIpv6Length,
    /// V19.3: an interface's MAC address is not 6 bytes.
    InterfaceMacLength,
    /// V19.4: an interface's EUI address is not 8 bytes.
    InterfaceEuiLength,
    /// V19.5: an interface's speed is not 8 bytes.
    InterfaceSpeedLength,
    /// V19.6: an interface's timestamp resolution is not 1 byte.
    InterfaceResolutionLength,
    /// V19.7: an interface's time zone is not 4 bytes.
    InterfaceZoneLength,
    /// V19.8: an interface's filter is empty.
    InterfaceFilterEmpty,
    /// V19.9: an interface's length of frame check sequences is not 1 byte.
    InterfaceFcsLength,
    /// V19.10: an interface's time offset is not 8 bytes.
    InterfaceOffsetLength,
    /// V19.11: an enhanced packet's flags are not 4 bytes.
    EnhancedFlagsLength,
    /// V19.12: an enhanced packet's drop count is not 8 bytes.
    EnhancedDropCountLength,
    /// V19.13: a packet's flags are not 4 bytes.
    PacketFlagsLength,
    /// V19.14: a name server's IPv4 address is not 4 bytes.
    NameIpv4Length,
    /// V19.15: a name server's IPv6 address is not 16 bytes.
    NameIpv6Length,
    /// V20: a name record's value extends past the body.
    RecordCut,
    /// V21: the record that ends the list of name records has a value.
    EndNotEmpty,
    /// V22: an IPv4 record is shorter than 6 bytes.
    Ipv4RecordTooShort,
    /// V23: an IPv6 record is shorter than 18 bytes.
    Ipv6RecordTooShort,
    /// V24: a name is not followed by a zero byte.
    NameUnended,
    /// V25: a name record's padding extends past the body.
    RecordUnpadded,
    /// V26: an unknown block's value is 2^32 bytes or more.
    UnknownTooLong,
}

// Passes the rows of all rules to the macro `each`, after the expression `given` if there is one. A row has the rule's name,
// number and message.
macro_rules! rows {
    ($each:ident $($given:expr)?) => {
        $each! {
            $($given;)?
            CaptureMagic 1 "PcapHeader wrong magic number";
            FractionTooLarge 2 "PacketHeader ts_usec * 1000 > 0xFFFFFFFF";
            IncludedTooLong 3 "PacketHeader incl_len > 0x40000";
            OriginalTooLong 4 "PacketHeader orig_len > 0x40000";
            IncludedPastOriginal 5 "PacketHeader incl_len > orig_len";
            SectionMagic 6 "SectionHeaderBlock: invalid magic number";
            BlockUnaligned 7 "Block: (initial_len % 4) != 0";
            BlockTooShort 8 "Block: initial_len < 12";
            BlockLengthsDiffer 9 "Block initial_length != trailer_length";
            SectionMissing 10 "SectionHeader missing";
            SectionTooShort 11 "SectionHeaderBlock: block length < 16";
            InterfaceTooShort 12 "InterfaceDescriptionBlock: block length < 8";
            EnhancedTooShort 13 "EnhancedPacketBlock: block length length < 20";
            EnhancedCut 14 "EnhancedPacketBlock: captured_len + padding > block length";
            SimpleTooShort 15 "SimplePacketBlock: block length < 4";
            StatisticsTooShort 16 "InterfaceStatisticsBlock: block length < 12";
            OptionTooShort 17 "Option: slice.len() < 4";
            OptionCut 18 "Option: length + pad.len() > slice.len()";
            InterfaceIpv4Length 1901 "InterfaceDescriptionOption: IfIpv4Addr length != 8";
            InterfaceIpv6Length 1902 "InterfaceDescriptionOption: IfIpv6Addr length != 17";
            InterfaceMacLength 1903 "InterfaceDescriptionOption: IfMacAddr length != 6";
            InterfaceEuiLength 1904 "InterfaceDescriptionOption: IfEuIAddr length != 8";
            InterfaceSpeedLength 1905 "InterfaceDescriptionOption: IfSpeed length != 8";
            InterfaceResolutionLength 1906 "InterfaceDescriptionOption: IfTsResol length != 1";
            InterfaceZoneLength 1907 "InterfaceDescriptionOption: IfTzone length != 4";
            InterfaceFilterEmpty 1908 "InterfaceDescriptionOption: IfFilter is empty";
            InterfaceFcsLength 1909 "InterfaceDescriptionOption: IfFcsLen length != 1";
            InterfaceOffsetLength 1910 "InterfaceDescriptionOption: IfTsOffset length != 8";
            EnhancedFlagsLength 1911 "EnhancedPacketOption: Flags length != 4";
            EnhancedDropCountLength 1912 "EnhancedPacketOption: DropCount length != 8";
            PacketFlagsLength 1913 "PacketOption: Flags length != 4";
            NameIpv4Length 1914 "NameResolutionOption: NsDnsIpv4Addr length != 4";
            NameIpv6Length 1915 "NameResolutionOption: NsDnsIpv6Addr length != 16";
            RecordCut 20 "NameResolutionBlock: Record length > slice.len()";
            EndNotEmpty 21 "NameResolutionBlock: nrb_record_end length != 0";
            Ipv4RecordTooShort 22 "NameResolutionBlock: Ipv4Record len < 6";
            Ipv6RecordTooShort 23 "NameResolutionBlock: Ipv6Record len < 18";
            NameUnended 24 "Non null terminated string";
            RecordUnpadded 25 "NameResolutionBlock: Record padding > slice.len()";
            UnknownTooLong 26 "UnknownBlock: length > 0xFFFFFFFF";
        }
    };
}

macro_rules! number {
    ($rule:expr; $($name:ident $number:literal $text:literal;)*) => {
        match $rule {
            $(Rule::$name => $number,)*
        }
    };
}

macro_rules! name {
    ($rule:expr; $($name:ident $number:literal $text:literal;)*) => {
        match $rule {
            $(Rule::$name => stringify!($name),)*
        }
    };
}

macro_rules! text {
    ($rule:expr; $($name:ident $number:literal $text:literal;)*) => {
        match $rule {
            $(Rule::$name => $text,)*
        }
    };
}

macro_rules! of_number {
    ($given:expr; $($name:ident $number:literal $text:literal;)*) => {
        match $given {
            $($number => Some(Rule::$name),)*
            _ => None,
        }
    };
}

macro_rules! all {
    ($($name:ident $number:literal $text:literal;)*) => {
        [$(Rule::$name),*]
    };
}

// All rules, ordered by number.
const RULES: [Rule; 40] = rows!(all);

impl Rule {
    /// Returns the number of this rule in the table of refusals: n for Vn, and 1900 + n for V19.n. No two rules share a
    /// number.
    pub fn number(self) -> u32
        ensures { result ≡ number_of self }
    {
        rows!(number self)
    }

    /// Returns the name of this rule, spelled as the variant.
    pub fn name(self) -> &'static str
        ensures { result.now ≡ name_of self }
    {
        rows!(name self)
    }

    /// Returns the rule with this number. Returns None if no rule has it.
    #[tactic(auto, using(crate::proofs::EachRule::one_number))]
    pub fn from_number(number: u32) -> Option<Rule>
        ensures numbered { IfSome result (λ rule. number_of rule ≡ number) }
        ensures found { (rule : Rule) → number_of rule ≡ number → result ≡ Some rule }
    {
        rows!(of_number number)
    }

    /// Returns the rule with this message. Returns None if no rule has it.
    pub(crate) fn from_message(message: &str) -> Option<Rule>
        ensures named { IfSome result (λ rule. rule_message rule ≡ message.now) }
        ensures found { (rule : Rule) → rule_message rule ≡ message.now → result ≡ Some rule }
    {
        for rule in &RULES {
            if rule.text() == message {
                return Some(*rule);
            }
        }
        None
    }

    /// Returns the message of the `InvalidField` that names this rule.
    pub fn text(self) -> &'static str
        ensures { result.now ≡ rule_message self }
    {
        rows!(text self)
    }
}
