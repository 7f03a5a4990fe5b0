//! The word `join`.

use pcap_program::Uninterrupted;
use pcapfile_cut::{BlockCutter, Joined, Opening, Wanted, join_part};
use pcapfile_files::{
    AT_FAULT, Console, OUTPUT, Shown, Watched, buffered, open_watched, tell_io, tell_other_file,
    write_named,
};
use pcapfile_lenient::tell_unopened;
use pcapfile_run::{Format, format_of};
use pcapfile_selected::{PacketSource, Source, tell_outcome};
use std::io;
use std::io::{BufReader, BufWriter, Write};

/// The arguments of `join`.
#[derive(Drop)]
pub struct Joining<'a> {
    /// The names of the parts, in order.
    pub parts: &'a [&'a str],
    /// The name of the joined capture.
    pub out: &'a str,
}

type Input = BufReader<Uninterrupted<Watched>>;

/// Joins the parts of a capture, and returns the exit status.
pub fn join_files(console: &Console, asked: &Joining) -> io::Result<u8> {
    write_named(console, asked.out, asked.parts, |output| {
        join_into(console, asked, output)
    })
}

fn join_into<W: Write + Drop>(console: &Console, asked: &Joining, output: W) -> io::Result<u8> {
    let mut output = BufWriter::with_capacity(console.alloc(), OUTPUT, output)?;
    let status = join_parts(console, asked, &mut output)?;
    if status != 0 {
        return Ok(status);
    }
    match output.flush() {
        Ok(()) => Ok(0),
        Err(error) => tell_io(console, asked.out, &error),
    }
}

fn join_parts<W: Write>(console: &Console, asked: &Joining, output: &mut W) -> io::Result<u8> {
    let Some((first, others)) = asked.parts.split_first() else {
        return Ok(0);
    };
    let (format, input) = match open(console, first) {
        Ok(opened) => opened,
        Err(error) => return tell_io(console, first, &error),
    };
    match format {
        Format::Pcap => match PacketSource::new(input) {
            Ok(mut packets) => {
                let opening = *packets.opening();
                let place = packets.opening_len();
                let outcome = packets.write_part(console.alloc(), output, Wanted::All, false);
                let status = tell_outcome(console, first, place, asked.out, &outcome)?;
                join_packets(console, asked, others, &opening, status, output)
            }
            Err(error) => tell_unopened(console, first, &error),
        },
        Format::PcapNg => match BlockCutter::new(console.alloc(), input) {
            Ok(mut blocks) => {
                let place = blocks.opening().len() as u64;
                let outcome = blocks.cut(output, Wanted::All, false);
                let status = tell_outcome(console, first, place, asked.out, &outcome)?;
                join_others(console, asked, others, blocks, status, output)
            }
            Err(error) => tell_unopened(console, first, &error),
        },
    }
}

fn open(console: &Console, name: &str) -> io::Result<(Format, Input)> {
    let mut input = buffered(console.alloc(), open_watched(console, name)?)?;
    let format = format_of(&mut input)?;
    Ok((format, input))
}

// Appends the packets of the other parts to the first, which was written with this status.
fn join_packets<W: Write>(
    console: &Console,
    asked: &Joining,
    others: &[&str],
    opening: &Opening,
    first: u8,
    output: &mut W,
) -> io::Result<u8> {
    let mut status = first;
    for part in others {
        if status != 0 {
            break;
        }
        status = match open(console, part) {
            Ok((Format::Pcap, input)) => join_next(console, asked, part, opening, input, output)?,
            Ok((Format::PcapNg, _)) => tell_other_format(console, part)?,
            Err(error) => tell_io(console, part, &error)?,
        };
    }
    Ok(status)
}

// Reports a part whose format differs from that of the first part, or what it is if it is no capture, and returns the exit status.
fn tell_other_format(console: &Console, part: &str) -> io::Result<u8> {
    let shown = Shown(part);
    if !tell_other_file(console, part)? {
        eprintln!(console.for_line();
            "pcapfile: {shown}: its format differs from that of the first part"
        )?;
    }
    Ok(AT_FAULT)
}

fn join_next<W: Write>(
    console: &Console,
    asked: &Joining,
    part: &str,
    opening: &Opening,
    mut input: Input,
    output: &mut W,
) -> io::Result<u8> {
    match join_part(console.alloc(), opening, &mut input, output) {
        Joined::Unopened(error) => tell_unopened(console, part, &error),
        Joined::OtherHeader => {
            let shown = Shown(part);
            eprintln!(console.for_line();
                "pcapfile: {shown}: its header differs from that of the first part"
            )?;
            Ok(AT_FAULT)
        }
        Joined::Packets(outcome) => {
            let place = opening.bytes().len() as u64;
            tell_outcome(console, part, place, asked.out, &outcome)
        }
    }
}

// Appends the blocks of the other parts to the first, which was written with this status.
fn join_others<W: Write>(
    console: &Console,
    asked: &Joining,
    others: &[&str],
    first: BlockCutter<Input>,
    written: u8,
    output: &mut W,
) -> io::Result<u8> {
    let mut before = first;
    let mut status = written;
    for part in others {
        if status != 0 {
            break;
        }
        let input = match open(console, part) {
            Ok((Format::PcapNg, input)) => input,
            Ok((Format::Pcap, _)) => return tell_other_format(console, part),
            Err(error) => return tell_io(console, part, &error),
        };
        let mut blocks = match BlockCutter::new(console.alloc(), input) {
            Ok(blocks) => blocks,
            Err(error) => return tell_unopened(console, part, &error),
        };
        let place = blocks.opening().len() as u64;
        let outcome = blocks.join(before.opening(), output);
        status = tell_outcome(console, part, place, asked.out, &outcome)?;
        before = blocks;
    }
    Ok(status)
}
