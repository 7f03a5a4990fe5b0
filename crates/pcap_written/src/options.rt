//! Lists of options.

ghost use Rattle.std.specs.Prelude.{map};
ghost use Rattle.pcap_options.specs.Values.{Entry, Kind};
ghost use Rattle.pcap_written.specs.Text.{option_text, list_text};
ghost use Rattle.pcap_written.specs.Fits.{IsFitOption, AreFit};
ghost use Rattle.pcap_written.specs.Flaws.{OptionFlaw, ListFlaw};
ghost use Rattle.pcap_written.specs.Forms.{TellsCoded};
ghost use Rattle.pcap_written.specs.Puts.{Puts};

use crate::form::Form;
use crate::put::{put_padding, put_u16};
use crate::unwritable::{Unput, Unwritable};
use byteorder::ByteOrder;

/// An option of one kind of block that can be written.
pub trait WrittenOption {
    ghost kind: { Kind };

    ghost view: { Self → Entry };

    /// Returns the option's code and the form of its value. None if the code is the end mark's, or its options hold other values.
    fn coded(&self) -> Option<(u16, Form<'_>)>
        ensures { TellsCoded kind (view self.now) result };
}

// Appends an option: its code, the length of its value, and the value with its padding.
fn put_option<O: WrittenOption, B: ByteOrder>(out: &mut Vec<u8>, option: &O) -> Result<(), Unput>
    ensures { let o = O.view option.now in
        Puts (IsFitOption B.number_of B.bytes_of O.kind o) (λ flaw. OptionFlaw B.number_of B.bytes_of O.kind flaw o)
        (option_text B.bytes_of O.kind o) out.old.items out.new.items result }
{
    let Some((code, form)) = option.coded() else {
        return Err(Unput::Unfit(Unwritable::OptionMisplaced));
    };
    let len = match form.measure() {
        Ok(len) => len,
        Err(flaw) => return Err(Unput::Unfit(flaw)),
    };
    put_u16::<B>(out, code)?;
    put_u16::<B>(out, len)?;
    form.put::<B>(out)?;
    put_padding(out, len as usize)?;
    Ok(())
}

/// Appends a list of options and its end mark, or nothing if there are no options.
pub(crate) fn put_options<O: WrittenOption, B: ByteOrder>(
    out: &mut Vec<u8>,
    options: &[O],
) -> Result<(), Unput>
    ensures { let os = map O.view options.now in
        Puts (AreFit B.number_of B.bytes_of O.kind os) (ListFlaw B.number_of B.bytes_of O.kind os)
        (list_text B.bytes_of O.kind os) out.old.items out.new.items result }
{
    if options.is_empty() {
        return Ok(());
    }
    for option in options {
        put_option::<O, B>(out, option)?;
    }
    put_u16::<B>(out, 0)?;
    put_u16::<B>(out, 0)?;
    Ok(())
}
