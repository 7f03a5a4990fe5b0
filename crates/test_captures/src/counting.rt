//! Counts how often a stream parser calls its format, for all sizes of pieces.

ghost use Rattle.pcap_core.specs.Bytes.{IsOwned};
ghost use Rattle.pcap_classic.specs.declared.pcap.header.PcapHeader.{PcapHeader};
ghost use Rattle.pcap_classic.specs.HeaderText.{HeaderSays};
ghost use Rattle.pcap_classic.specs.PacketText.{packet_limit, Captured, content_of};
ghost use Rattle.pcap_classic.specs.Packets.{capture_format};
ghost use Rattle.pcap_classic.specs.Parser.{header_of};

use pcap_core::{PcapError, ResultParsing};
use pcap_file::PcapParser;
use pcap_file::pcap::Packet;
use pcap_items::run::{PieceParser, feed_pieces, pieces_fit};
use std::alloc::{AllocError, Global};
use std::test::Fail;
use test_support::captures::front;
use test_support::rows::bytes;

// A parser of packets that counts its calls. Its setting is the most bytes with which a capture is opened: more lack memory.
#[derive(Drop)]
struct Counting {
    parser: PcapParser,
    calls: usize,
}

impl PieceParser for Counting {
    type Item = Packet<'static>;

    type Setting = usize;

    ghost State = { PcapHeader };

    ghost Value = { Captured };

    ghost Part = { Captured };

    ghost opens = { λ _. HeaderSays };

    ghost format = { capture_format packet_limit };

    ghost state = { λ counting. header_of counting.parser };

    ghost part = { λ packet. packet };

    ghost view = { content_of };

    ghost owned = { λ packet. IsOwned packet.data_ };

    fn open<'a>(alloc: Global, most: usize, held: &'a [u8]) -> ResultParsing<(&'a [u8], Counting)> {
        if held.len() > most {
            return Err(PcapError::OutOfMemory(AllocError));
        }
        let (after, parser) = PcapParser::open(alloc, (), held)?;
        Ok((after, Counting { parser, calls: 0 }))
    }

    fn take<'a>(
        &mut self,
        alloc: Global,
        held: &'a [u8],
    ) -> ResultParsing<(&'a [u8], Packet<'static>)> {
        self.calls = self.calls.saturating_add(1);
        self.parser.take(alloc, held)
    }
}

// Returns how many packets come from pieces of `size` bytes, and how often the parser is called for them.
fn fed(alloc: Global, bytes: &[u8], size: usize, most: usize) -> ResultParsing<(usize, usize)> {
    let mut pieces: Vec<&[u8]> = Vec::new(alloc);
    for piece in bytes.chunks(size.max(1)) {
        pieces.push(piece)?;
    }
    if !pieces_fit(&pieces) {
        return Err(PcapError::OutOfMemory(AllocError));
    }
    let fed = feed_pieces::<Counting>(alloc, most, &pieces)?;
    Ok((fed.items.len(), fed.parser.calls))
}

// Returns whether so many packets come, with so many calls.
fn is_fed(alloc: Global, bytes: &[u8], size: usize, packets: usize, calls: usize) -> bool {
    match fed(alloc, bytes, size, usize::MAX) {
        Ok((found, made)) => found == packets && made == calls,
        Err(_) => false,
    }
}

// A header, a packet of 60 bytes, an empty one, and one of 44: 24, 76, 16 and 60 bytes. Then come a packet header that is refused, and
// zeros.
fn capture(alloc: Global) -> Result<Vec<u8>, Fail> {
    let mut whole = bytes(
        alloc,
        "a1b2c3d4 00020004 00000000 00000000 0000ffff 00000001",
    )?;
    for (size, end) in [(60, 100), (0, 116), (44, 176)] {
        whole.extend_from_slice(&[0, 0, 0, 1, 0, 0, 0, 0, 0, 0, 0, size, 0, 0, 0, size])?;
        whole.resize(end, 7)?;
    }
    whole.resize(192, 0xff)?;
    whole.resize(300, 0)?;
    Ok(whole)
}

// Checks that a packet costs at most three calls. The parser is called after the header, after each packet, and once more for a packet
// whose header came before its end. Each packet is returned by a call of its own. Pieces of one and of four bytes end where each header
// and each packet does: the calls come after the capture's header; at the header of the first packet, at its end and after it; at the end
// of the empty one and after it; and likewise at the last one. The same holds for pieces of ten bytes. All at once there is a call for
// each of the three packets, and one after them.
#[test]
fn no_piece_asks_anew(rt: HostRuntime) -> Result<(), Fail> {
    let bytes = capture(rt.alloc())?;
    for (end, size, packets, calls) in [
        (176, 1, 3, 9),
        (176, 4, 3, 9),
        (172, 4, 2, 7),
        (176, 10, 3, 9),
        (176, 176, 3, 4),
    ] {
        let front = front(bytes.as_slice(), end);
        assert!(rt;
            is_fed(rt.alloc(), front, size, packets, calls),
            "{end} by {size}"
        );
    }
    Ok(())
}

// Checks that no call follows a refused packet header, for any number of bytes after it.
#[test]
fn nothing_is_asked_behind_a_refusal(rt: HostRuntime) -> Result<(), Fail> {
    let bytes = capture(rt.alloc())?;
    for (size, calls) in [(1, 10), (4, 10), (300, 4)] {
        assert!(rt;
            is_fed(rt.alloc(), bytes.as_slice(), size, 3, calls),
            "by {size}"
        );
    }
    Ok(())
}

// Checks that the parser is called once for a refused header, with its 24 bytes, for any number of bytes after it.
#[test]
fn nothing_is_opened_behind_a_refusal(rt: HostRuntime) {
    for size in [1, 4, 12, 24] {
        let fed = fed(rt.alloc(), &[0xff; 96], size, 24);
        assert!(rt; matches!(fed, Err(PcapError::InvalidField(_))), "by {size}");
    }
}
