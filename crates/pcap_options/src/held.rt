//! The values of options, looked up by code.

ghost use Rattle.std.specs.Prelude.{◌≡◌, map};
ghost use Rattle.std.specs.Option.{option_map};
ghost use Rattle.pcap_options.specs.Values.{Entry};
ghost use Rattle.pcap_options.specs.Held.{entry_held, string_in, number_in, unknown_in, under, first_under};

/// A borrowed view of an option: its code and its value.
#[derive(Clone, Copy)]
pub struct Held<'a> {
    pub(crate) code: u16,
    pub(crate) value: HeldValue<'a>,
}

// A borrowed view of an option's value. A custom value has the enterprise number, and an unknown value has its length.
#[derive(Clone, Copy)]
pub(crate) enum HeldValue<'a> {
    Str(&'a str),
    Bytes(&'a [u8]),
    Integer(u64),
    CustomStr(u32, &'a str),
    CustomBytes(u32, &'a [u8]),
    Unknown(u16, &'a [u8]),
}

impl<'a> Held<'a> {
    // Returns the option's number, if the option has this code and is a number.
    fn number(self, code: u16) -> Option<u64>
        ensures { result ≡ under code number_in (entry_held self.entry) }
    {
        match self.value {
            HeldValue::Integer(number) if self.code == code => Some(number),
            _ => None,
        }
    }

    // Returns the option's string, if the option has this code and is a string.
    fn string(self, code: u16) -> Option<&'a str>
        ensures { option_map (λ string. string.now) result ≡ under code string_in (entry_held self.entry) }
    {
        match self.value {
            HeldValue::Str(string) if self.code == code => Some(string),
            _ => None,
        }
    }

    // Returns the option's value, if the option has this code and is unknown.
    fn unknown(self, code: u16) -> Option<&'a [u8]>
        ensures { option_map (λ value. value.now) result ≡ under code unknown_in (entry_held self.entry) }
    {
        match self.value {
            HeldValue::Unknown(_, value) if self.code == code => Some(value),
            _ => None,
        }
    }
}

/// Options whose code and value can be borrowed.
pub trait HoldsEntry {
    // The option's code and value, wherever its bytes are in memory.
    ghost entry: { Self → Entry };

    /// Returns a borrowed view of the option's code and value.
    fn held(&self) -> Held<'_>
        ensures { entry_held result ≡ entry self.now };
}

/// Returns the number of the first option that has this code and is a number.
#[tactic(auto, using(crate::proofs::Found::found, crate::proofs::Found::missed))]
pub fn first_number<O: HoldsEntry>(options: &[O], code: u16) -> Option<u64>
    ensures { result ≡ first_under code number_in (map O.entry options.now) }
{
    for option in options {
        if let Some(number) = option.held().number(code) {
            return Some(number);
        }
    }
    None
}

/// Returns the string of the first option that has this code and is a string.
#[tactic(auto, using(crate::proofs::Found::found, crate::proofs::Found::missed))]
pub fn first_string<O: HoldsEntry>(options: &[O], code: u16) -> Option<&str>
    ensures { option_map (λ string. string.now) result ≡ first_under code string_in (map O.entry options.now) }
{
    for option in options {
        if let Some(string) = option.held().string(code) {
            return Some(string);
        }
    }
    None
}

/// Returns the value of the first unknown option with this code.
#[tactic(auto, using(crate::proofs::Found::found, crate::proofs::Found::missed))]
pub fn first_unknown<O: HoldsEntry>(options: &[O], code: u16) -> Option<&[u8]>
    ensures { option_map (λ value. value.now) result ≡ first_under code unknown_in (map O.entry options.now) }
{
    for option in options {
        if let Some(value) = option.held().unknown(code) {
            return Some(value);
        }
    }
    None
}
