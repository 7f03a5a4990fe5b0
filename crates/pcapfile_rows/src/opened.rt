//! Damaged captures whose packets or blocks were found.

ghost use Rattle.std.specs.Prelude.{IfOk};
ghost use Rattle.pcapfile_rows.specs.Opened.{BeginsWith, HasOpening, OpensWithHeader, bytes_in};

use crate::describing::{Describing, Supposed};
use crate::lost::{FirstSection, Lost, lost_blocks, lost_blocks_in};
use crate::opening::{ETHERNET, Found, Opening, guess_in, header_bytes, run_of, undo_transfer};
use crate::packets::HEADER;
use crate::rows::{Rows, SECTION, begins_section};
use crate::variants::make_plain;
use crate::window::Window;
use pcap_file::pcap::PcapHeader;
use pcap_file::{PcapError, PcapParser, ResultParsing};
use pcap_variants::Variant;
use std::alloc::Global;
use std::io::BufRead;

/// The first byte of a PcapNg capture.
const FIRST_OF_BLOCKS: u8 = 10;

/// A damaged capture, and what was found in it.
#[derive(Drop)]
pub enum Opened<R> {
    /// Packets.
    Packets(FoundPackets<R>),
    /// Blocks.
    Blocks(Rows<R>),
    /// No packets: this error refuses it as a classic capture.
    NoPackets(PcapError),
    /// No blocks: this error refuses it as a PcapNg capture.
    NoBlocks(PcapError),
}

/// The packets of a damaged capture.
#[derive(Drop)]
pub struct FoundPackets<R> {
    /// The header.
    pub header: PcapHeader,
    /// The bytes of the header: those of the capture, or of a given or guessed header as it is written.
    pub opening: Vec<u8>,
    /// The packets.
    pub rows: Rows<R>,
}

impl<R: BufRead + Drop> Opened<R> {
    /// Returns the packets or blocks of a capture, and its variant of classic captures, if it is of one. The errors are those of reads and
    /// of memory.
    pub fn new(alloc: Global, input: R) -> ResultParsing<(Opened<R>, Option<Variant>)>
        ensures opening { IfOk result (λ x. OpensWithHeader x.0) }
    {
        let mut window = Window::new(alloc, input);
        window.show(HEADER)?;
        let variant = make_plain(alloc, &mut window)?;
        let opened = match header_in(window.shown()) {
            Ok(header) => Opened::after_header(alloc, header, window)?,
            Err(error) => Opened::of_blocks(alloc, error, window, Describing::off(alloc))?,
        };
        Ok((opened, variant))
    }

    /// Returns the same with a given or guessed header if the capture has none, and what was found at the beginning. Undescribed interfaces
    /// are described.
    pub fn opened_as(alloc: Global, input: R, opening: Opening) -> ResultParsing<(Opened<R>, Found)>
        ensures opening { IfOk result (λ x. OpensWithHeader x.0) }
    {
        let mut found = Found {
            guessed: None,
            is_undone: false,
            section: FirstSection::Found,
            variant: None,
        };
        let window = Window::new(alloc, input);
        let opened = match opening {
            Opening::Own => Opened::own(alloc, window, &mut found)?,
            Opening::Given(header) => Opened::given(alloc, window, header, &mut found)?,
            Opening::Guess(link) => Opened::guessed(alloc, window, link, &mut found)?,
        };
        Ok((opened, found))
    }

    // Returns the items under the capture's own header. It notes whether blocks are left out with a lost section header.
    fn own(alloc: Global, mut window: Window<R>, found: &mut Found) -> ResultParsing<Opened<R>>
        ensures { IfOk result OpensWithHeader }
    {
        window.show(HEADER)?;
        found.variant = make_plain(alloc, &mut window)?;
        let error = match header_in(window.shown()) {
            Ok(header) => return Opened::after_header(alloc, header, window),
            Err(error) => error,
        };
        if !begins_section(alloc, &mut window)? {
            let sure = window.reach_row()?;
            if let Some(lost) = lost_blocks(alloc, window.shown())? {
                let (run, _guessed) = guess_in(window.shown(), sure, None)?;
                if lost.blocks >= run.packets {
                    found.section = FirstSection::Lost;
                }
            }
        }
        Opened::of_blocks(alloc, error, window, Describing::on(alloc, None))
    }

    // Returns the items under a given header, which for blocks is that of their section, if they have none, and of undescribed interfaces.
    fn given(
        alloc: Global,
        mut window: Window<R>,
        header: PcapHeader,
        found: &mut Found,
    ) -> ResultParsing<Opened<R>>
        ensures { IfOk result OpensWithHeader }
    {
        let sure = window.reach_row()?;
        let parser = PcapParser::with_header(header)?;
        let resolution = parser.header().ts_resolution();
        let supposed = Supposed::by_header(u32::from(header.datalink), resolution);
        let describing = Describing::on(alloc, Some(supposed));
        if begins_section(alloc, &mut window)? {
            return Ok(Opened::Blocks(Rows::of_blocks(alloc, window, describing)?));
        }
        let run = run_of(&parser, window.shown(), sure);
        let order = parser.header().endianness();
        if let Some(lost) = lost_blocks_in(alloc, order, window.shown())? {
            if lost.blocks >= run.packets {
                return Opened::of_lost(alloc, lost, window, describing, found);
            }
        }
        Opened::without_header(alloc, &parser, window)
    }

    // Returns the items after a text-mode transfer is undone, and with a guessed header if the capture has none.
    fn guessed(
        alloc: Global,
        mut window: Window<R>,
        link: Option<u32>,
        found: &mut Found,
    ) -> ResultParsing<Opened<R>>
        ensures { IfOk result OpensWithHeader }
    {
        found.is_undone = undo_transfer(alloc, &mut window, link)?;
        if !found.is_undone {
            found.variant = make_plain(alloc, &mut window)?;
        }
        let error = match header_in(window.shown()) {
            Ok(header) => return Opened::after_header(alloc, header, window),
            Err(error) => error,
        };
        let supposed = Supposed::by_guess(link.unwrap_or(ETHERNET), link.is_none());
        let describing = Describing::on(alloc, Some(supposed));
        if begins_section(alloc, &mut window)? {
            return Opened::of_blocks(alloc, error, window, describing);
        }
        let sure = window.reach_row()?;
        let (run, guessed) = guess_in(window.shown(), sure, link)?;
        let has_section = window.shown().starts_with(&SECTION);
        if let Some(lost) = lost_blocks(alloc, window.shown())? {
            if lost.blocks >= run.packets {
                return Opened::of_lost(alloc, lost, window, describing, found);
            }
        }
        match guessed {
            Some(guessed) if !has_section => {
                found.guessed = Some(guessed);
                let parser = PcapParser::with_header(guessed.header())?;
                Opened::without_header(alloc, &parser, window)
            }
            _ => Opened::of_blocks(alloc, error, window, describing),
        }
    }

    // Returns the packets under a header that the window begins with.
    fn after_header(
        alloc: Global,
        header: PcapHeader,
        mut window: Window<R>,
    ) -> ResultParsing<Opened<R>>
        requires { BeginsWith header (bytes_in window) }
        ensures { IfOk result OpensWithHeader }
    {
        let bytes = window.shown().get(..HEADER).unwrap_or_default();
        let opening = Vec::from_slice(alloc, bytes)?;
        window.pass(HEADER);
        Opened::of_packets(alloc, header, opening, window)
    }

    // Returns the packets under a parser's header, which the window doesn't have.
    fn without_header(
        alloc: Global,
        parser: &PcapParser,
        window: Window<R>,
    ) -> ResultParsing<Opened<R>>
        ensures { IfOk result OpensWithHeader }
    {
        let opening = Vec::from_slice(alloc, &header_bytes(parser))?;
        Opened::of_packets(alloc, *parser.header(), opening, window)
    }

    // Returns the packets under this header, whose bytes are the opening.
    fn of_packets(
        alloc: Global,
        header: PcapHeader,
        opening: Vec<u8>,
        window: Window<R>,
    ) -> ResultParsing<Opened<R>>
        requires { HasOpening header opening.items }
        ensures { IfOk result OpensWithHeader }
    {
        let rows = Rows::of_packets(alloc, header, window)?;
        Ok(Opened::Packets(FoundPackets {
            header,
            opening,
            rows,
        }))
    }

    // Returns the blocks. If the capture has no section header, and doesn't begin as a PcapNg capture, it is refused with `error`, the
    // error of its first bytes as a classic header.
    fn of_blocks(
        alloc: Global,
        error: PcapError,
        window: Window<R>,
        describing: Describing,
    ) -> ResultParsing<Opened<R>>
        ensures { IfOk result OpensWithHeader }
    {
        let is_of_blocks = window.shown().first() == Some(&FIRST_OF_BLOCKS);
        match Rows::of_blocks(alloc, window, describing) {
            Ok(rows) => Ok(Opened::Blocks(rows)),
            Err(PcapError::IoError(error)) => Err(PcapError::IoError(error)),
            Err(PcapError::OutOfMemory(error)) => Err(PcapError::OutOfMemory(error)),
            Err(refusal) if is_of_blocks => Ok(Opened::NoBlocks(refusal)),
            Err(_) => Ok(Opened::NoPackets(error)),
        }
    }

    // Returns blocks whose section header is lost, and notes that one is written.
    fn of_lost(
        alloc: Global,
        lost: Lost,
        window: Window<R>,
        describing: Describing,
        found: &mut Found,
    ) -> ResultParsing<Opened<R>>
        ensures { IfOk result OpensWithHeader }
    {
        found.section = FirstSection::Written(lost.order);
        Ok(Opened::Blocks(Rows::of_lost(alloc, lost, window, describing)?))
    }
}

fn header_in(bytes: &[u8]) -> ResultParsing<PcapHeader>
    ensures { IfOk result (λ header. BeginsWith header bytes.now) }
{
    let front = &bytes[..bytes.len().min(HEADER)];
    let (_rest, header) = PcapHeader::from_slice(front)?;
    Ok(header)
}
