//! The flaws of a block's body.

ghost use Rattle.std.specs.Prelude.{◌≡◌, None, map, IfOk};
ghost use Rattle.pcap_core.specs.Faults.{Invalid};
ghost use Rattle.pcap_tolerant_blocks.specs.Flaws.{said_of, alone};

use pcap_core::rules::Rule;
use std::alloc::{AllocError, Global};

/// The fault of a value, a list of options or a body.
#[derive(Clone, Copy, Debug)]
pub enum Broken {
    /// It breaks this rule.
    Rule(Rule),
    /// It is too short: the value of a custom option with fewer than 4 bytes, or a number or time of statistics with fewer than
    /// 8. It can also be a record of names, if fewer than 4 bytes are left for its type and length.
    TooShort,
    /// It is a string that isn't valid UTF-8.
    NotUtf8,
}

/// A flaw of a body, for which strict reading refuses the body.
#[derive(Clone, Copy, Debug)]
pub struct Flaw {
    /// The code of the option whose value has the flaw. It is None if the flaw is in the whole body, in the list of options, or
    /// in a record of names.
    pub code: Option<u16>,
    /// The fault.
    pub broken: Broken,
}

impl Flaw {
    // Returns a flaw of a body or of a list of options, by this rule.
    pub(crate) fn of_body(rule: Rule) -> Flaw
        ensures { said_of result ≡ record { code = None; fault = Invalid rule } }
    {
        Flaw {
            code: None,
            broken: Broken::Rule(rule),
        }
    }

    // Returns a list of this flaw alone.
    pub(crate) fn alone(alloc: Global, rule: Rule) -> Result<Vec<Flaw>, AllocError>
        ensures { IfOk result (λ flaws. map said_of flaws.items ≡ alone rule) }
    {
        let mut flaws = Vec::new(alloc);
        flaws.push(Flaw::of_body(rule))?;
        Ok(flaws)
    }
}
