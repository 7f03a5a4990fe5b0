//! Classic captures whose packets have further bytes in their headers.

use crate::packets::HEADER;
use crate::window::Window;
use pcap_damaged::{begins_near, head_at};
use pcap_file::pcap::PACKET_LIMIT;
use pcap_file::{PcapParser, ResultParsing};
use pcap_variants::{Variant, variant_of};
use std::alloc::Global;
use std::io::BufRead;

/// The length of a packet's head, in bytes.
const HEAD: usize = 16;

/// Makes the capture in the window a plain one if it is of a variant, and returns that variant.
pub(crate) fn make_plain<R: BufRead>(
    alloc: Global,
    window: &mut Window<R>,
) -> ResultParsing<Option<Variant>> {
    if is_plain(window)? {
        return Ok(None);
    }
    window.reach_row()?;
    let Some(variant) = variant_of(window.shown()) else {
        return Ok(None);
    };
    let plain = window.plain(alloc, variant)?;
    window.put_undone(plain);
    Ok(Some(variant))
}

// Returns whether the first packet of the capture in the window is before another one of a plain capture, or the capture is of no
// variant by its first bytes. It reads no further than that head.
fn is_plain<R: BufRead>(window: &mut Window<R>) -> ResultParsing<bool> {
    let bytes = window.shown();
    if bytes.starts_with(b"\xa1\xb2\xcd\x34") || bytes.starts_with(b"\x34\xcd\xb2\xa1") {
        return Ok(false);
    }
    let Ok((rest, parser)) = PcapParser::new(window.shown()) else {
        return Ok(true);
    };
    let Some((head, _data)) = head_at(&parser, rest) else {
        return Ok(false);
    };
    if head.included > PACKET_LIMIT {
        return Ok(false);
    }
    let end = HEADER + HEAD + head.included as usize;
    if !window.reach(end + HEAD)? {
        return Ok(false);
    }
    let behind = window.shown().get(end..).unwrap_or_default();
    Ok(begins_near(&parser, head.seconds, behind))
}
