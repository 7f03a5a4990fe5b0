//! Headers that the command line gives.

use pcap_file::{Endianness, TsResolution};
use pcapfile_rows::{Opening, header_for};

/// Returns where the header comes from: from a text such as `little,micro,1`, from a guess with this link type, if it is given, or
/// from the capture. `None` if the text is no header.
pub fn opening_of(header: Option<&str>, is_guess: bool, link: Option<u32>) -> Option<Opening> {
    let Some(text) = header else {
        return Some(if is_guess {
            Opening::Guess(link)
        } else {
            Opening::Own
        });
    };
    let (order, rest) = text.split_once(',')?;
    let (resolution, number) = rest.split_once(',')?;
    let order = match order {
        "little" => Endianness::Little,
        "big" => Endianness::Big,
        _ => return None,
    };
    let resolution = match resolution {
        "micro" => TsResolution::MicroSecond,
        "nano" => TsResolution::NanoSecond,
        _ => return None,
    };
    let number: u32 = number.parse().ok()?;
    Some(Opening::Given(header_for(order, resolution, number)))
}
