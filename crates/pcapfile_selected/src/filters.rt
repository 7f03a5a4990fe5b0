//! Filters that users name by a file.

use pcap_filter::{Filter, FilterError, Rule, TextError, parse};
use pcapfile_files::{Console, STANDARD, Shown, USAGE, tell_io};
use std::alloc::Global;
use std::fs::File;
use std::io::Read;
use std::{io, str};

/// The most bytes of a program's text. A program of 4096 instructions has fewer.
const LONGEST: u64 = 1 << 20;

/// A filter that was read from a file, or the exit status if there is none.
pub(crate) type Loaded = Result<Filter, u8>;

/// Why a text is no program.
#[derive(Drop)]
enum Refusal {
    Text(TextError),
    Program(FilterError),
}

impl From<TextError> for Refusal {
    fn from(error: TextError) -> Refusal {
        Refusal::Text(error)
    }
}

impl From<FilterError> for Refusal {
    fn from(error: FilterError) -> Refusal {
        Refusal::Program(error)
    }
}

/// Reads the program in this file, or on standard input, and reports why there is none.
pub(crate) fn load(console: &Console, name: &str) -> io::Result<Loaded> {
    match text_of(console, name) {
        Err(error) => Ok(Err(tell_io(console, name, &error)?)),
        Ok(text) => match filter_of(console.alloc(), text.as_slice()) {
            Ok(filter) => Ok(Ok(filter)),
            Err(refusal) => Ok(Err(tell_refusal(console, name, &refusal)?)),
        },
    }
}

// Returns the bytes of a program's text, each that is not ASCII as a question mark.
fn text_of(console: &Console, name: &str) -> io::Result<Vec<u8>> {
    let mut text = Vec::new(console.alloc());
    if name == STANDARD {
        console.rt().stdin().take(LONGEST).read_to_end(&mut text)?;
    } else {
        let file = File::open(console.rt(), name)?;
        file.take(LONGEST).read_to_end(&mut text)?;
    }
    for byte in text.as_mut_slice() {
        if !byte.is_ascii() {
            *byte = b'?';
        }
    }
    Ok(text)
}

fn filter_of(alloc: Global, text: &[u8]) -> Result<Filter, Refusal> {
    let program = parse(alloc, str::from_utf8(text).unwrap_or_default())?;
    Ok(Filter::new(alloc, program.as_slice())?)
}

// Reports why a text is no program, and returns the exit status.
fn tell_refusal(console: &Console, name: &str, refusal: &Refusal) -> io::Result<u8> {
    let shown = Shown(name);
    match refusal {
        Refusal::Text(TextError::OutOfMemory(error))
        | Refusal::Program(FilterError::OutOfMemory(error)) => {
            return tell_io(console, name, &io::Error::from(*error));
        }
        Refusal::Text(TextError::Broken { line, rule }) => eprintln!(console.for_line();
            "error: {shown}: line {line}: {rule}"
        )?,
        Refusal::Program(FilterError::Broken { place, rule }) => {
            let line = line_of(*place, *rule);
            eprintln!(console.for_line(); "error: {shown}: line {line}: {rule}")?;
        }
    }
    eprintln!(console.for_line(); "For a program, run 'tcpdump -ddd EXPRESSION'.")?;
    Ok(USAGE)
}

// Returns the line of the instruction at a place. The first line has no instruction.
fn line_of(place: usize, rule: Rule) -> usize {
    match rule {
        Rule::Empty => 1,
        _ => place.saturating_add(2),
    }
}
