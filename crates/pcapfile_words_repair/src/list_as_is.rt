//! The lenient word `list`.

use crate::as_is::{Between, BlockLines, Telling};
use pcap_file::PcapError;
use pcap_program::{Exit, Uninterrupted};
use pcapfile_as_is::PacketLines;
use pcapfile_files::{AT_FAULT, Console, OUTPUT, Shown, tell_error, tell_exit, tell_unwritten};
use pcapfile_lenient::tell_cut_short;
use std::io;
use std::io::{BufWriter, Write};

/// Lists the packets of each capture with their flaws, reports the gaps between them, and returns the worst exit status. If
/// there are several captures, the name of each is before its packets.
pub fn list_files_as_is(console: &Console, names: &[&str]) -> io::Result<u8> {
    let stdout = Uninterrupted::new(console.rt().stdout());
    let mut output = BufWriter::with_capacity(console.alloc(), OUTPUT, stdout)?;
    let mut status = 0;
    for name in names {
        status = list_file(console, name, names.len() > 1, &mut output)?.max(status);
    }
    Ok(status)
}

fn list_file<W: Write>(
    console: &Console,
    name: &str,
    is_headed: bool,
    output: &mut W,
) -> io::Result<u8> {
    let mut telling = match Telling::open(console, name) {
        Ok(telling) => telling,
        Err(error) => return tell_error(console, name, &error),
    };
    if is_headed {
        let shown = Shown(name);
        writeln!(output, "{shown}:")?;
    }
    let listed = list_packets(console, name, &mut telling, output);
    // The listed packets are written before the messages on them.
    output.flush()?;
    if let Err(exit) = listed {
        return tell_unwritten(console, name, exit);
    }
    let Telling {
        position,
        fault,
        changed,
        ..
    } = telling;
    let is_sound = position.counted.flawed == 0 && position.left_out == 0 && changed == 0;
    let status = if is_sound { 0 } else { AT_FAULT };
    Ok(match fault {
        None => status,
        Some(PcapError::IncompleteBuffer(_)) => {
            tell_cut_short(console, name, position.counted.bytes)?.max(status)
        }
        Some(error) => tell_exit(console, name, &Exit::from(error))?.max(status),
    })
}

// Lists the packets of a capture, and reports each gap after the packets before it.
fn list_packets<W: Write>(
    console: &Console,
    name: &str,
    telling: &mut Telling,
    output: &mut W,
) -> Result<(), Exit> {
    let alloc = console.alloc();
    for _ in 0..u64::MAX {
        let between = telling.tell_row(alloc, &mut PacketLines, BlockLines::Packets, output)?;
        let Some(between) = between else {
            break;
        };
        output.flush()?;
        let shown = Shown(name);
        match between {
            Between::Gap(gap) => eprintln!(console.for_line(); "pcapfile: {shown}: {gap}")?,
            Between::Change(change) => {
                let text = telling.text_of(alloc, &change, false)?;
                eprintln!(console.for_line(); "pcapfile: {shown}: {text}")?;
            }
        }
    }
    Ok(())
}
