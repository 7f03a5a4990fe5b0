//! Replays whole runs. Each line of the input is a call, its argument and a capture in hexadecimal digits, separated by bars. Each line
//! of the output is the result: the error of the header or first block; or else the packets, or the blocks with the section and
//! interfaces after them, and how they end.
//!
//! The argument is the most items of a reader, which must give the same from short reads, or the lengths of the pieces of the capture.
//! The captures of `stdin` were drawn at random: whole, truncated or damaged. `tests/model/run` makes `stdout` with a model of the
//! formats that shares no code with this program.
#![tactic(auto)]

mod blocks;
mod packets;
mod pieces;
mod texts;

use pcap_file::ResultParsing;
use std::alloc::Global;
use std::io;

fn main(rt: HostRuntime) -> io::Result<()> {
    for line in rt.lines(rt.alloc()) {
        let line = line?;
        match answer(rt.alloc(), line.as_str()) {
            Ok(told) => println!(rt; "{told}")?,
            Err(_) => println!(rt; "out of memory")?,
        }
    }
    Ok(())
}

// Returns the result of the call on this line.
fn answer(alloc: Global, line: &str) -> ResultParsing<String> {
    let mut told = String::new(alloc);
    let Some((call, rest)) = line.split_once('|') else {
        return Ok(told);
    };
    let Some((argument, digits)) = rest.split_once('|') else {
        return Ok(told);
    };
    let Ok(bytes) = hex::decode(alloc, digits) else {
        return Ok(told);
    };
    let most = argument.parse::<u64>().unwrap_or(0);
    match call {
        "parse_pcap" => packets::parse(alloc, bytes.as_slice(), &mut told)?,
        "read_pcap" => packets::read(alloc, bytes.as_slice(), most, &mut told)?,
        "exact_pcap" => packets::exact(alloc, bytes.as_slice(), &mut told)?,
        "pieces_pcap" => packets::pieces(alloc, bytes.as_slice(), argument, &mut told)?,
        "parse_pcapng" => blocks::parse(alloc, bytes.as_slice(), &mut told)?,
        "exact_pcapng" => blocks::exact(alloc, bytes.as_slice(), &mut told)?,
        "pieces_pcapng" => blocks::pieces(alloc, bytes.as_slice(), argument, &mut told)?,
        "read_pcapng" => blocks::read(alloc, bytes.as_slice(), most, &mut told)?,
        _ => told.push_str("no such call")?,
    }
    Ok(told)
}
