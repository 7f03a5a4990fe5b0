//! Tables of the options of each kind of block. Each row has an option's name, its code, the shape of its value, and
//! what that shape requires. Each macro passes the given tokens, the kind's name and all rows of the kind to the macro
//! `each`.

/// The options of a section header.
#[macro_export]
macro_rules! section_options {
    ($each:ident $($given:tt)*) => {
        $each! {
            $($given)*; SectionHeaderOption;
            Comment 1 string;
            Hardware 2 string;
            OS 3 string;
            UserApplication 4 string;
        }
    };
}

/// The options of an interface description.
#[macro_export]
macro_rules! interface_options {
    ($each:ident $($given:tt)*) => {
        $each! {
            $($given)*; InterfaceDescriptionOption;
            Comment 1 string;
            IfName 2 string;
            IfDescription 3 string;
            IfIpv4Addr 4 fixed_bytes(8 InterfaceIpv4Length);
            IfIpv6Addr 5 fixed_bytes(17 InterfaceIpv6Length);
            IfMacAddr 6 fixed_bytes(6 InterfaceMacLength);
            IfEuIAddr 7 number8(InterfaceEuiLength);
            IfSpeed 8 number8(InterfaceSpeedLength);
            IfTsResol 9 byte(InterfaceResolutionLength);
            IfTzone 10 number4(InterfaceZoneLength);
            IfFilter 11 some_bytes(InterfaceFilterEmpty);
            IfOs 12 string;
            IfFcsLen 13 byte(InterfaceFcsLength);
            IfTsOffset 14 number8(InterfaceOffsetLength);
            IfHardware 15 string;
        }
    };
}

/// The options of an enhanced packet.
#[macro_export]
macro_rules! enhanced_options {
    ($each:ident $($given:tt)*) => {
        $each! {
            $($given)*; EnhancedPacketOption;
            Comment 1 string;
            Flags 2 number4(EnhancedFlagsLength);
            Hash 3 bytes;
            DropCount 4 number8(EnhancedDropCountLength);
        }
    };
}

/// The options of a packet block.
#[macro_export]
macro_rules! packet_options {
    ($each:ident $($given:tt)*) => {
        $each! {
            $($given)*; PacketOption;
            Comment 1 string;
            Flags 2 number4(PacketFlagsLength);
            Hash 3 bytes;
        }
    };
}

/// The options of a name resolution block.
#[macro_export]
macro_rules! name_options {
    ($each:ident $($given:tt)*) => {
        $each! {
            $($given)*; NameResolutionOption;
            Comment 1 string;
            NsDnsName 2 string;
            NsDnsIpv4Addr 3 fixed_bytes(4 NameIpv4Length);
            NsDnsIpv6Addr 4 fixed_bytes(16 NameIpv6Length);
        }
    };
}

/// The options of interface statistics.
#[macro_export]
macro_rules! statistics_options {
    ($each:ident $($given:tt)*) => {
        $each! {
            $($given)*; InterfaceStatisticsOption;
            Comment 1 string;
            IsbStartTime 2 first_time;
            IsbEndTime 3 first_time;
            IsbIfRecv 4 first_number;
            IsbIfDrop 5 first_number;
            IsbFilterAccept 6 first_number;
            IsbOsDrop 7 first_number;
            IsbUsrDeliv 8 first_number;
        }
    };
}
