//! The values of options, in the form in which they are written.

ghost use Rattle.std.specs.Prelude.{◌≡◌, ◌<◌, ◌≤◌, ◌+◌, ◌^◌, ◌++◌, OnOk, MatchResult};
ghost use Rattle.pcap_written.specs.declared.unwritable.Unwritable.TheVariants.{OptionTooLong};
ghost use Rattle.pcap_written.specs.Forms.{form_bytes, MeasuresForm};

use crate::put::{put_time, put_u32, put_u64};
use crate::unwritable::Unwritable;
use byteorder::ByteOrder;
use pcap_core::rules::Rule;
use std::alloc::AllocError;

/// The value of an option, by how it is written.
#[derive(Clone, Copy)]
pub enum Form<'a> {
    /// A string, or any number of bytes.
    Bytes(&'a [u8]),
    /// This number of bytes, and the rule that any other number breaks.
    Sized(usize, Rule, &'a [u8]),
    /// At least one byte, and the rule that an empty value breaks.
    Filled(Rule, &'a [u8]),
    Byte(u8),
    Number32(u32),
    Number64(u64),
    /// A timestamp, its high 4 bytes before its low 4.
    Time(u64),
    /// The number of an enterprise, and its string or bytes.
    Custom(u32, &'a [u8]),
    /// Bytes, and the length that the option states for them.
    Unknown(u16, &'a [u8]),
}

impl<'a> Form<'a> {
    /// Returns the number of bytes of the value, which is the same in each byte order.
    pub(crate) fn measure(self) -> Result<u16, Unwritable>
        ensures { MeasuresForm self.entry result }
    {
        match self {
            Form::Bytes(bytes) => fits(bytes.len()),
            Form::Sized(n, rule, bytes) => {
                if bytes.len() != n {
                    return Err(Unwritable::Breaks(rule));
                }
                fits(n)
            }
            Form::Filled(rule, bytes) => {
                if bytes.is_empty() {
                    return Err(Unwritable::Breaks(rule));
                }
                fits(bytes.len())
            }
            Form::Byte(_) => Ok(1),
            Form::Number32(_) => Ok(4),
            Form::Number64(_) | Form::Time(_) => Ok(8),
            Form::Custom(_, bytes) => fits_behind(bytes.len()),
            Form::Unknown(len, bytes) => {
                if bytes.len() != len as usize {
                    return Err(Unwritable::OptionLengthDiffers);
                }
                Ok(len)
            }
        }
    }

    /// Appends the bytes of the value.
    pub(crate) fn put<B: ByteOrder>(self, out: &mut Vec<u8>) -> Result<(), AllocError>
        ensures { OnOk result (out.new.items ≡ out.old.items ++ form_bytes B.bytes_of self.entry) }
    {
        match self {
            Form::Bytes(bytes)
            | Form::Sized(_, _, bytes)
            | Form::Filled(_, bytes)
            | Form::Unknown(_, bytes) => out.extend_from_slice(bytes),
            Form::Byte(n) => out.extend_from_slice(&[n]),
            Form::Number32(n) => put_u32::<B>(out, n),
            Form::Number64(n) => put_u64::<B>(out, n),
            Form::Time(n) => put_time::<B>(out, n),
            Form::Custom(pen, bytes) => {
                put_u32::<B>(out, pen)?;
                out.extend_from_slice(bytes)
            }
        }
    }
}

// Returns the length if it fits two bytes.
fn fits(len: usize) -> Result<u16, Unwritable>
    ensures { MatchResult result (λ n. (n ≡ len) × (len < 2 ^ 16)) (λ flaw. (flaw ≡ OptionTooLong) × (2 ^ 16 ≤ len)) }
{
    if len < 65536 {
        Ok(len as u16)
    } else {
        Err(Unwritable::OptionTooLong)
    }
}

// Returns the length plus 4 if the sum fits two bytes.
fn fits_behind(len: usize) -> Result<u16, Unwritable>
    ensures { MatchResult result (λ n. (n ≡ 4 + len) × (4 + len < 2 ^ 16)) (λ flaw. (flaw ≡ OptionTooLong) × (2 ^ 16 ≤ 4 + len)) }
{
    if len < 65532 {
        Ok(len as u16 + 4)
    } else {
        Err(Unwritable::OptionTooLong)
    }
}
