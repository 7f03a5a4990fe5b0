//! Why the library refuses to write a block that a program in C describes.

ghost use Rattle.std.specs.Prelude.{◌≡◌, pos, IfSome, Some};
ghost use Rattle.pcapfile_values.specs.declared.reasons.Reason.{Reason};
ghost use Rattle.pcapfile_values.specs.Reasons.{reason_number, reason_name, reason_message, IsRefused};

use crate::errors::PcapfileError;
use pcap_core::rules::Rule;
use pcap_written::Unwritable;

/// Why a call is refused under status 3: the rule of a format, or of written blocks. Its number is in the table of refusals.
#[derive(Clone, Copy)]
pub enum Reason {
    Breaks(Rule),
    LinkTooLarge,
    InterfaceMissing,
    InterfacesFull,
    BlockTooLong,
}

impl Reason {
    // Returns the number of the reason.
    fn number(self) -> u32
        ensures { result ≡ reason_number self }
    {
        match self {
            Reason::Breaks(rule) => rule.number(),
            Reason::LinkTooLarge => 2001,
            Reason::InterfaceMissing => 2002,
            Reason::InterfacesFull => 2003,
            Reason::BlockTooLong => 2004,
        }
    }

    /// Returns the name of the reason.
    pub fn name(self) -> &'static str
        ensures { result.now ≡ reason_name self }
    {
        match self {
            Reason::Breaks(rule) => rule.name(),
            Reason::LinkTooLarge => "LinkTooLarge",
            Reason::InterfaceMissing => "InterfaceMissing",
            Reason::InterfacesFull => "InterfacesFull",
            Reason::BlockTooLong => "BlockTooLong",
        }
    }

    /// Returns the message of the reason.
    pub fn text(self) -> &'static str
        ensures { result.now ≡ reason_message self }
    {
        match self {
            Reason::Breaks(rule) => rule.text(),
            Reason::LinkTooLarge => Unwritable::LinkTooLarge.message(),
            Reason::InterfaceMissing => Unwritable::InterfaceMissing.message(),
            Reason::InterfacesFull => Unwritable::InterfacesFull.message(),
            Reason::BlockTooLong => Unwritable::BlockTooLong.message(),
        }
    }

    /// Returns the reason of this number, or None if no reason has it.
    pub fn from_number(number: u32) -> Option<Reason>
        ensures numbered { IfSome result (λ reason. reason_number reason ≡ number) }
        ensures found { (reason : Reason) → reason_number reason ≡ number → result ≡ Some reason }
    {
        match number {
            2001 => Some(Reason::LinkTooLarge),
            2002 => Some(Reason::InterfaceMissing),
            2003 => Some(Reason::InterfacesFull),
            2004 => Some(Reason::BlockTooLong),
            _ => match Rule::from_number(number) {
                Some(rule) => Some(Reason::Breaks(rule)),
                None => None,
            },
        }
    }
}

/// Writes into the struct that a block was refused for this reason, and returns the status.
pub fn refuse(reason: Reason, told: &mut PcapfileError) -> i32
    ensures { IsRefused reason told.new result }
{
    *told = PcapfileError {
        rule: reason.number(),
        missing: 0,
    };
    3
}

/// Writes into the struct how many more bytes of room the call needs, and returns the status.
pub fn need(missing: usize, told: &mut PcapfileError) -> i32
    ensures told { told.new ≡ record { rule = 0; missing = missing } }
    ensures status { result ≡ pos 9 }
{
    *told = PcapfileError { rule: 0, missing };
    9
}
