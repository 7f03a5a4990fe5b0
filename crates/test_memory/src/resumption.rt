//! Calls on captures that come, or are supplied, a few bytes at a time, and on a packet that is lent.

use crate::bytes::{BLOCKS, CAPTURE};
use crate::{came, tell};
use pcap_file::pcap::PcapReader;
use pcap_file::run::{Window, exact_pcap, exact_pcapng, pieces_fit, pieces_pcap, pieces_pcapng};
use pcap_file::{PcapError, ResultParsing};
use std::alloc::Global;
use std::io::{self, Cursor};

// The header of a packet of 1000 bytes.
const HEAD: [u8; 16] = [0, 0, 0, 2, 0, 0, 0, 0, 0, 0, 3, 0xe8, 0, 0, 3, 0xe8];

/// Feeds single bytes. Memory for the missing bytes is allocated once at the header and once at the packet.
pub(crate) fn feed_bytes(rt: &HostRuntime) -> io::Result<()> {
    tell(rt, "pieces of one byte", pieces_of_one_byte(rt.alloc()))
}

fn pieces_of_one_byte(alloc: Global) -> ResultParsing<()> {
    let (header, _packet) = CAPTURE.split_at(24);
    let mut capture = Vec::with_capacity(alloc, 1040)?;
    capture.extend_from_slice(header)?;
    capture.extend_from_slice(&HEAD)?;
    capture.resize(1040, 7)?;
    let mut pieces: Vec<&[u8]> = Vec::with_capacity(alloc, 1040)?;
    for piece in capture.chunks(1) {
        pieces.push(piece)?;
    }
    if !pieces_fit(&pieces) {
        return Err(PcapError::InvalidField("they don't fit"));
    }
    let (run, _numbers) = pieces_pcap(alloc, &pieces)?;
    if run.packets.len() == 1 {
        Ok(())
    } else {
        Err(PcapError::InvalidField("no packet came"))
    }
}

pub(crate) fn make_calls(rt: &HostRuntime) -> io::Result<()> {
    let alloc = rt.alloc();
    tell(
        rt,
        "exact_pcap",
        exact_pcap(alloc, &mut Window::new(&CAPTURE)),
    )?;
    tell(
        rt,
        "exact_pcapng",
        exact_pcapng(alloc, &mut Window::new(&BLOCKS)),
    )?;
    let (front, back) = CAPTURE.split_at(30);
    tell(rt, "pieces_pcap", pieces_pcap(alloc, &[front, back]))?;
    let (front, back) = BLOCKS.split_at(50);
    tell(rt, "pieces_pcapng", pieces_pcapng(alloc, &[front, back]))?;
    tell(rt, "PcapReader::next_header", next_header(alloc))
}

fn next_header(alloc: Global) -> ResultParsing<()> {
    let mut reader = PcapReader::new(alloc, Cursor::new(CAPTURE))?;
    came(reader.next_header())
}
