//! Statuses, and the struct that describes why a call failed.

ghost use Rattle.std.specs.Prelude.{◌≡◌, pos};
ghost use Rattle.pcap_core.specs.declared.rules.Rule.{Rule};
ghost use Rattle.pcap_core.specs.Faults.{Names};
ghost use Rattle.pcap_core.specs.Rules.{number_of};
ghost use Rattle.pcapfile_values.specs.Refusals.{ShowsError, ShowsRule};

use pcap_core::PcapError;
use pcap_core::rules::Rule;

/// Why a call was refused. In C: `pcapfile_error`.
#[repr(C)]
#[derive(Clone, Copy)]
pub struct PcapfileError {
    /// The number of the rule that the bytes break, under status 3. Otherwise 0.
    pub rule: u32,
    /// At least how many bytes are missing, under status 1. How many bytes longer the room must be, under status 9. Otherwise 0.
    pub missing: usize,
}

// Returns the number of the rule that an error names, or 0 if it names none.
fn rule_number(error: &PcapError) -> u32
    ensures named { (rule : Rule) → Names rule error.now → result ≡ number_of rule }
    ensures unnamed { ((rule : Rule) → Names rule error.now → ⊥) → result ≡ 0 }
{
    match error.rule() {
        Some(rule) => rule.number(),
        None => 0,
    }
}

/// Writes an error into the struct and returns its status.
pub fn tell(error: &PcapError, told: &mut PcapfileError) -> i32
    ensures { ShowsError error.now told.new result }
{
    *told = PcapfileError {
        rule: 0,
        missing: 0,
    };
    match error {
        PcapError::IncompleteBuffer(n) => {
            told.missing = *n;
            1
        }
        PcapError::IoError(_) => 2,
        PcapError::InvalidField(_) => {
            told.rule = rule_number(error);
            3
        }
        PcapError::Utf8Error(_) => 4,
        PcapError::FromUtf8Error(_) => 5,
        PcapError::OutOfMemory(_) => 6,
        PcapError::WriterFailed => 7,
    }
}

/// Writes into the struct that the bytes break this rule, and returns the status.
pub fn tell_broken(rule: Rule, told: &mut PcapfileError) -> i32
    ensures status { result ≡ pos 3 }
    ensures shown { ShowsRule rule told.new }
{
    *told = PcapfileError {
        rule: rule.number(),
        missing: 0,
    };
    3
}
