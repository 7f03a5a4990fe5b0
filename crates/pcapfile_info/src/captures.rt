//! Information on whole captures.

ghost use Rattle.std.specs.Prelude.{◌≡◌, [], None, IfSome, IfOk, IfErr};
ghost use Rattle.pcapfile_info.specs.Information.{InformsPackets, InformsBlocks, OpensWithTexts, TellsMachine};
ghost use Rattle.pcapfile_info.specs.Describing.{machine_told, no_machine};

use crate::described::{Described, Machine, Opened, machine_of, opened_by, push_comments};
use crate::passing::tell_packets;
use crate::progress::{MOST, Progress, tell_blocks};
use crate::tally::Tally;
use crate::totals::Totals;
use pcap_file::PcapNgReader;
use pcap_file::pcap::{PcapHeader, read_header};
use pcapfile_run::{Checked, Format, end_of};
use std::alloc::{AllocError, Global};
use std::io::BufRead;

/// The information that one pass over a capture collects.
#[derive(Debug, Drop)]
pub struct Information {
    /// The result of a check of the capture: how many items were read, how many bytes they take, and why reading ended.
    pub checked: Checked,
    /// The header of a classic capture. `None` if it couldn't be read, and for PcapNg.
    pub header: Option<PcapHeader>,
    /// The byte order and version of the first section header of a PcapNg capture. `None` if it couldn't be read, and for a
    /// classic capture.
    pub opened: Option<Opened>,
    /// What the first section header of a PcapNg capture says of how it was made.
    pub machine: Machine,
    /// The totals of the items that were read.
    pub totals: Totals,
    /// The descriptions of the interfaces of a PcapNg capture, in order over all sections.
    pub described: Vec<Described>,
    /// The comments on the sections of a PcapNg capture, in order.
    pub comments: Vec<String>,
}

/// Reads a classic capture from a stream and returns its information. The function holds at most one packet in memory.
/// `AllocError` if there is no memory for the totals.
pub fn inform_packets<R: BufRead + Drop>(
    alloc: Global,
    mut input: R,
) -> Result<Information, AllocError>
    ensures informs { IfOk result (λ told. IfSome (R.remaining input) (λ s. InformsPackets s told.checked told.header told.totals)) }
    ensures nothing_described { IfOk result (λ told. (told.opened ≡ None) × (told.described.items ≡ []) × (told.comments.items ≡ [])) }
    ensures no_machine { IfOk result (λ told. machine_told told.machine ≡ no_machine) }
{
    let format = Format::Pcap;
    let totals = Totals::with_interface(alloc)?;
    let own = Box::new(alloc, Tally::new())?;
    let mut read_failed = false;
    let header = match read_header(&mut input, &mut read_failed) {
        Ok(header) => header,
        Err(error) => {
            let end = end_of(Some(error), read_failed, 0, MOST);
            return Ok(Information {
                checked: Checked {
                    format,
                    items: 0,
                    bytes: 0,
                    end,
                },
                header: None,
                opened: None,
                machine: Machine::unknown(),
                totals,
                described: Vec::new(alloc),
                comments: Vec::new(alloc),
            });
        }
    };
    let mut progress = Progress {
        items: 0,
        bytes: 24,
        totals,
        section: 1,
        described: Vec::new(alloc),
        comments: Vec::new(alloc),
    };
    let fault = tell_packets(
        alloc,
        own,
        &header,
        &mut input,
        &mut read_failed,
        &mut progress,
    );
    let Progress {
        items,
        bytes,
        totals,
        section: _,
        described,
        comments,
    } = progress;
    let end = end_of(fault, read_failed, items, MOST);
    Ok(Information {
        checked: Checked {
            format,
            items,
            bytes,
            end,
        },
        header: Some(header),
        opened: None,
        machine: Machine::unknown(),
        totals,
        described,
        comments,
    })
}

/// Reads a PcapNg capture from a stream and returns its information. In memory are at most one block, the current section and
/// its interfaces, and what is collected. `AllocError` if there is no memory for the texts of the first section.
pub fn inform_blocks<R: BufRead + Drop>(alloc: Global, input: R) -> Result<Information, AllocError>
    ensures informs { IfOk result
        (λ told. IfSome (R.remaining input) (λ s. InformsBlocks s told.checked told.header told.totals told.opened told.described.items told.comments.items)) }
    ensures machine { IfOk result (λ told. IfSome (R.remaining input) (λ s. TellsMachine s told.opened told.machine)) }
    ensures no_room { IfErr result (λ e. IfSome (R.remaining input) OpensWithTexts) }
{
    let format = Format::PcapNg;
    let totals = Totals::new(alloc);
    let mut reader = match PcapNgReader::new(alloc, input) {
        Ok(reader) => reader,
        Err(error) => {
            let end = end_of(Some(error), true, 0, MOST);
            return Ok(Information {
                checked: Checked {
                    format,
                    items: 0,
                    bytes: 0,
                    end,
                },
                header: None,
                opened: None,
                machine: Machine::unknown(),
                totals,
                described: Vec::new(alloc),
                comments: Vec::new(alloc),
            });
        }
    };
    let opened = opened_by(reader.section());
    let mut comments = Vec::new(alloc);
    push_comments(alloc, &mut comments, reader.section())?;
    let machine = machine_of(alloc, reader.section())?;
    let mut read_failed = false;
    let mut progress = Progress {
        items: 0,
        bytes: reader.text().len() as u64,
        totals,
        section: 1,
        described: Vec::new(alloc),
        comments,
    };
    let fault = tell_blocks(alloc, &mut reader, &mut read_failed, &mut progress);
    let Progress {
        items: passed,
        bytes,
        totals,
        section: _,
        described,
        comments,
    } = progress;
    let items = passed + 1;
    let end = end_of(fault, read_failed, items, MOST + 1);
    Ok(Information {
        checked: Checked {
            format,
            items,
            bytes,
            end,
        },
        header: None,
        opened,
        machine,
        totals,
        described,
        comments,
    })
}
