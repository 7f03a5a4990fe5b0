//! Calls on captures and packets.

use crate::bytes::CAPTURE;
use crate::{came, tell, without};
use byteorder::BigEndian;
use pcap_classic::pcap::{Packet, PcapHeader, PcapReader};
use pcap_classic::run::{Copied, PcapRead, Under, copy_pcap, parse_pcap, read_pcap};
use pcap_classic::stream::{Fill, Told};
use pcap_classic::{CowBytes, PcapError, ResultParsing, TsResolution};
use std::alloc::Global;
use std::io::{self, Cursor};

pub(crate) fn make_calls(rt: &HostRuntime) -> io::Result<()> {
    let alloc = rt.alloc();
    tell(rt, "parse_pcap", parse_pcap(alloc, &CAPTURE))?;
    tell(rt, "read_pcap", read(alloc))?;
    tell(rt, "PcapReader::next", next(alloc))?;
    tell(rt, "copy_pcap", copy(alloc))?;
    let bytes = PcapHeader::default().to_array::<BigEndian>(alloc);
    tell(rt, "PcapHeader::to_array", bytes)?;
    tell(rt, "Packet::from_reader", packet_from_reader(alloc))?;
    tell(rt, "Packet::to_owned", packet_to_owned(alloc))?;
    tell(rt, "Packet::into_owned", packet_into_owned(alloc))?;
    let bytes = CowBytes::Borrowed(&CAPTURE).into_owned(alloc);
    tell(rt, "CowBytes::into_owned", bytes)?;
    tell(rt, "Fill::step", fill_step(alloc))?;
    tell(rt, "Fill::more", fill_more(alloc))
}

// Checks that no packet is taken that then doesn't fit into the list.
fn read(alloc: Global) -> ResultParsing<()> {
    let mut capture = Cursor::new(CAPTURE);
    let PcapRead { packets, fault, .. } = read_pcap(alloc, &mut capture, 9)?;
    match fault {
        None => Ok(()),
        Some(_) if packets.is_empty() && capture.position() == 44 => {
            Err(PcapError::InvalidField("a packet was lost"))
        }
        Some(error) => Err(error),
    }
}

fn next(alloc: Global) -> ResultParsing<()> {
    let mut reader = PcapReader::new(alloc, Cursor::new(CAPTURE))?;
    came(reader.next())
}

fn copy(alloc: Global) -> ResultParsing<()> {
    let mut capture = Cursor::new(CAPTURE);
    let Copied { fault, .. } = copy_pcap(alloc, &mut capture, &mut io::sink(), Under::Same, 9);
    without(fault)
}

fn packet_from_reader(alloc: Global) -> ResultParsing<Packet<'static>> {
    let (_header, mut text) = CAPTURE.split_at(24);
    Packet::from_reader::<_, BigEndian>(alloc, &mut text, TsResolution::MicroSecond)
}

fn packet_to_owned(alloc: Global) -> ResultParsing<Packet<'static>> {
    let (_header, text) = CAPTURE.split_at(24);
    let (_rest, packet) = Packet::from_slice::<BigEndian>(text, TsResolution::MicroSecond)?;
    packet.to_owned(alloc)
}

fn packet_into_owned(alloc: Global) -> ResultParsing<Packet<'static>> {
    let (_header, text) = CAPTURE.split_at(24);
    let (_rest, packet) = Packet::from_slice::<BigEndian>(text, TsResolution::MicroSecond)?;
    packet.into_owned(alloc)
}

fn fill_step(alloc: Global) -> ResultParsing<usize> {
    let mut fill = Fill::new(alloc, Told::new(Cursor::new(CAPTURE)));
    fill.step(10)
}

fn fill_more(alloc: Global) -> ResultParsing<bool> {
    let mut fill = Fill::new(alloc, Told::new(Cursor::new(CAPTURE)));
    fill.more(44)
}
