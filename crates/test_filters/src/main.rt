//! Runs filters on packets. Each line of the input is a program, the packet's original length, and its bytes in hexadecimal digits,
//! separated by bars. The program is printed as by `tcpdump -ddd`, with a comma in place of each line end. Each line of the output is the
//! program's result, or why it is refused.
//!
//! The first programs of `stdin` are those of `tests/filter/rows`: each operation, filters of tcpdump, and programs that break a rule. The
//! others were drawn at random. The results in `stdout` are those of libpcap's interpreter. `tests/filter/run --write` makes both files.
#![tactic(auto)]

use anyhow::{Context, Result};
use pcap_filter::{Filter, parse};
use std::alloc::Global;

// Returns the text of a program whose lines end in commas.
fn lines_of(alloc: Global, program: &str) -> Result<String> {
    let mut text = String::new(alloc);
    for line in program.split(',') {
        text.push_str(line)?;
        text.push('\n')?;
    }
    Ok(text)
}

// Returns the result of the program of a line for its packet.
fn result_of(alloc: Global, line: &str) -> Result<u32> {
    let (program, packet) = line.split_once('|').context("a line has a program")?;
    let (length, digits) = packet.split_once('|').context("a line has a packet")?;
    let length = length.parse::<u32>()?;
    let bytes = hex::decode(alloc, digits)?;
    let text = lines_of(alloc, program)?;
    let program = parse(alloc, text.as_str())?;
    let filter = Filter::new(alloc, program.as_slice())?;
    Ok(filter.accepts(bytes.as_slice(), length))
}

fn main(rt: HostRuntime) -> Result<()> {
    for line in rt.lines(rt.alloc()) {
        let line = line?;
        match result_of(rt.alloc(), line.as_str()) {
            Ok(accepted) => println!(rt; "{accepted}")?,
            Err(error) => println!(rt; "{error}")?,
        }
    }
    Ok(())
}
