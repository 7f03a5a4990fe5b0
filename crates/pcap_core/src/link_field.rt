//! What the header of a capture says in the field of its link type.

ghost use Rattle.pcap_core.specs.LinkField.{SaysLink};

use crate::link::DataLink;

/// How many link types the low 16 bits of the field number.
const LINK_TYPES: u32 = 65536;

/// The value of the bit (26) that says that the field has a length of the frame check sequence.
const HAS_FCS_LEN: u32 = 67108864;

/// The value of the lowest of the four bits (28 to 31) of that length.
const FCS_LEN: u32 = 268435456;

/// What the 32 bits of a link type in the header of a capture say: the link type, and the length of the frame check sequence
/// ('File Header', LinkType).
///
/// `DataLink::from` takes all 32 bits for the number of a link type, as the Rust crate does. The bits 16 to 25 and 27 are reserved and
/// say nothing here.
#[derive(Clone, Copy, Debug)]
pub struct LinkField {
    /// The link type, which is the number in the low 16 bits.
    pub link: DataLink,
    /// How many bytes of frame check sequence each packet ends with. `None` if the field does not say.
    pub fcs_len: Option<u8>,
}

impl From<u32> for LinkField {
    ghost from_gives = { SaysLink };

    fn from(n: u32) -> LinkField {
        LinkField {
            link: DataLink::from(n % LINK_TYPES),
            fcs_len: if n / HAS_FCS_LEN % 2 == 1 {
                Some((n / FCS_LEN * 2) as u8)
            } else {
                None
            },
        }
    }
}
