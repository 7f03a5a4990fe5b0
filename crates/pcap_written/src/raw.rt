//! Blocks whose bodies are bytes.

ghost use Rattle.std.specs.Prelude.{◌≡◌, ◌%◌, length, take};
ghost use Rattle.byteorder.specs.Endian.{big_number};
ghost use Rattle.pcap_written.specs.Raw.{Raw, raw_of, TellsRaw};

use crate::block::BlockHead;
use crate::place::Place;
use crate::unwritable::Unwritable;
use byteorder::BigEndian;
use pcap_blocks::BlockType;
use pcap_core::Endianness;
use pcap_core::fields::split_u32;
use pcap_core::rules::Rule;

/// A block whose body is bytes, which are written unchanged.
#[derive(Clone, Copy, Debug)]
pub struct RawBlock<'a> {
    /// The block's type.
    pub type_: BlockType,
    /// The byte order of the numbers around the body and in it.
    pub endianness: Endianness,
    /// The block's body, without the lengths before and after it.
    pub body: &'a [u8],
}

/// A block that can be written as a type and the bytes of its body.
pub trait RawPcapNgBlock {
    ghost shows: { Self → Raw };

    /// Returns the block's type, its byte order and the bytes of its body.
    fn raw(&self) -> RawBlock<'_>
        ensures { raw_of result ≡ shows self.now };
}

impl<'a> RawPcapNgBlock for RawBlock<'a> {
    ghost shows = { raw_of };

    fn raw(&self) -> RawBlock<'_> {
        *self
    }
}

impl<'a> RawBlock<'a> {
    // Returns the place after this block, or why the block can't be written here.
    pub(crate) fn behind(self, at: Place) -> Result<Place, Unwritable>
        ensures { TellsRaw at (raw_of self.entry) result }
    {
        if self.body.len() % 4 != 0 {
            return Err(Unwritable::Breaks(Rule::BlockUnaligned));
        }
        if self.body.len() > 4_294_967_283 {
            return Err(Unwritable::BlockTooLong);
        }
        let number = u32::from(self.type_);
        if BlockType::from(number) != self.type_ {
            return Err(Unwritable::TypeMisnamed);
        }
        let magic = match self.type_ {
            BlockType::SectionHeader => Some(first_number(self.body)),
            _ => None,
        };
        let place = at.behind(BlockHead {
            type_: self.type_,
            magic,
            interface_id: None,
        })?;
        if place.endianness != self.endianness {
            return Err(Unwritable::OrderDiffers);
        }
        Ok(place)
    }
}

// Returns the number in the first four bytes of a body, high byte first, or 0 if the body is empty.
fn first_number(body: &[u8]) -> u32
    requires { length body.now % 4 ≡ 0 }
    ensures { result ≡ big_number 4 (take 4 body.now) }
{
    if body.is_empty() {
        return 0;
    }
    let (number, _after) = split_u32::<BigEndian>(body);
    number
}
