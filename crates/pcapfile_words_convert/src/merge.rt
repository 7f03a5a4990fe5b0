//! The word `merge`.

ghost use Rattle.std.specs.Prelude.{IfOk};
ghost use Rattle.pcapfile_merge.specs.Holding.{IsReady};

use pcap_file::{PcapNgReader, PcapReader, ResultParsing};
use pcap_filter::Filter;
use pcap_program::Uninterrupted;
use pcapfile_convert::{Joining, Opened, merge_readers, tell_left_out};
use pcapfile_files::{
    AT_FAULT, Console, OUTPUT, Watched, buffered, open_further, tell_error, tell_io, write_named,
};
use pcapfile_lenient::{Captured, tell_fault, tell_unopened};
use pcapfile_merge::{BufferedBlocks, BufferedPackets, PacketOrder, Reader, Source};
use pcapfile_reading::Input;
use pcapfile_run::{Format, format_of};
use pcapfile_selected::{Account, Choice, Tests, load_filter, tell_account};
use std::io;
use std::io::{BufWriter, Read, Write};
use std::rc::Rc;

/// A capture to merge.
type Stream<'a> = Uninterrupted<Input<'a>>;

/// The arguments of `merge`.
#[derive(Drop)]
pub struct Merge<'a> {
    /// The names of the captures to merge.
    pub names: &'a [&'a str],
    /// The order of the packets.
    pub order: PacketOrder,
    /// The format of the merged capture.
    pub to: Format,
    /// The name of the merged capture.
    pub out: &'a str,
    /// Whether the program merges what `repair` would write of the captures.
    pub as_is: bool,
    /// The packets of each capture that are merged.
    pub choice: Choice<'a>,
}

/// The captures that are merged.
#[derive(Drop)]
struct Inputs<'a, R> {
    /// Their readers, until these become sources.
    readers: Vec<Opened<R>>,
    /// Their names.
    names: Vec<&'a str>,
    /// What is reported on the selected packets of each.
    accounts: Vec<Rc<Account>>,
    /// The worst exit status so far.
    status: u8,
}

impl<'a, R: Drop> Inputs<'a, R> {
    // Adds the capture of this name.
    fn add(&mut self, name: &'a str, reader: Reader<R>, account: Rc<Account>) -> io::Result<()>
        requires { IsReady reader }
    {
        self.readers.push(Opened::new(reader))?;
        self.names.push(name)?;
        self.accounts.push(account)?;
        Ok(())
    }
}

/// The outcome of a merge.
#[derive(Clone, Copy)]
struct Ended {
    /// The worst exit status of the files.
    status: u8,
    /// Whether the whole output was written, and each capture was read to its end or to its first truncated or malformed item.
    is_whole: bool,
}

impl Ended {
    // Returns the outcome of a merge that was given up.
    fn given_up(status: u8) -> Ended {
        Ended {
            status,
            is_whole: false,
        }
    }
}

/// Merges captures, and returns the exit status. The output is complete even if one of the captures is truncated or malformed.
pub fn merge_files(console: &Console, asked: &Merge) -> io::Result<u8> {
    let filter = match load_filter(console, asked.choice.bpf, asked.names)? {
        Ok(filter) => filter,
        Err(status) => return Ok(status),
    };
    let mut read = Vec::from_slice(console.alloc(), asked.names)?;
    if let Some(bpf) = asked.choice.bpf {
        read.push(bpf)?;
    }
    let mut worst = 0;
    let told = write_named(console, asked.out, read.as_slice(), |output| {
        let ended = merge_to(console, asked, filter.as_ref(), output)?;
        worst = ended.status;
        Ok(if ended.is_whole { 0 } else { ended.status })
    })?;
    Ok(told.max(worst))
}

fn merge_to<'a, W: Write + Drop>(
    console: &Console,
    asked: &'a Merge<'a>,
    filter: Option<&'a Filter>,
    output: W,
) -> io::Result<Ended> {
    let mut inputs = Inputs {
        readers: Vec::new(console.alloc()),
        names: Vec::new(console.alloc()),
        accounts: Vec::new(console.alloc()),
        status: 0,
    };
    console.begin();
    for name in asked.names {
        open_input(console, name, asked, filter, &mut inputs)?;
        if inputs.status > AT_FAULT {
            return Ok(Ended::given_up(inputs.status));
        }
    }
    if inputs.readers.is_empty() {
        return Ok(Ended::given_up(AT_FAULT.max(inputs.status)));
    }
    merge_inputs(console, asked, inputs, output)
}

// Opens a capture, and adds it to the inputs. Reports why it can't be read.
fn open_input<'a>(
    console: &Console,
    name: &'a str,
    asked: &'a Merge<'a>,
    filter: Option<&'a Filter>,
    inputs: &mut Inputs<'a, Stream<'a>>,
) -> io::Result<()> {
    let tests = match asked.choice.tests(console, name, asked.as_is, filter)? {
        Ok(tests) => tests,
        Err(status) => {
            inputs.status = status.max(inputs.status);
            return Ok(());
        }
    };
    let stream = match open_further(console, name) {
        Ok(stream) => stream,
        Err(error) => {
            inputs.status = tell_io(console, name, &error)?;
            return Ok(());
        }
    };
    let account = Rc::new(console.alloc(), Account::new())?;
    match open_reader(console, name, stream, asked.as_is, tests, &account) {
        Ok(reader) => inputs.add(name, reader, account)?,
        Err(error) => inputs.status = tell_unopened(console, name, &error)?.max(inputs.status),
    }
    Ok(())
}

// Merges the captures into the output, and reports what was left out and why a capture ended early.
fn merge_inputs<R: Read + Drop, W: Write + Drop>(
    console: &Console,
    asked: &Merge,
    inputs: Inputs<'_, R>,
    output: W,
) -> io::Result<Ended> {
    let Inputs {
        readers,
        names,
        accounts,
        mut status,
    } = inputs;
    let output = BufWriter::with_capacity(console.alloc(), OUTPUT, output)?;
    let mut sources = Vec::new(console.alloc());
    let joining = Joining {
        alloc: console.alloc(),
        order: asked.order,
        names: names.as_slice(),
    };
    let left_out = match merge_readers(joining, asked.to, readers, &mut sources, output) {
        Ok(left_out) => left_out,
        Err(error) => return Ok(Ended::given_up(tell_error(console, asked.out, &error)?)),
    };
    tell_left_out(console, names.as_slice(), sources.as_slice())?;
    left_out.tell(console, asked.out)?;
    status = tell_faults(console, names.as_slice(), sources.as_slice())?.max(status);
    for (name, account) in names.iter().zip(accounts.as_slice()) {
        status = tell_account(console, name, account)?.max(status);
    }
    Ok(Ended {
        status,
        is_whole: status <= AT_FAULT,
    })
}

// Reports the error that ended each capture early, if any, and returns the worst exit status.
fn tell_faults<R: Read + Drop>(
    console: &Console,
    names: &[&str],
    sources: &[Source<R>],
) -> io::Result<u8> {
    let mut status = 0;
    for (name, source) in names.iter().zip(sources) {
        if let Some(error) = source.fault() {
            status = tell_fault(console, name, error)?.max(status);
        }
    }
    Ok(status)
}

// Opens a reader for a capture of either format.
fn open_reader<'a>(
    console: &Console,
    name: &str,
    stream: Watched,
    as_is: bool,
    tests: Option<Tests<'a>>,
    account: &Rc<Account>,
) -> ResultParsing<Reader<Stream<'a>>>
    ensures { IfOk result (λ reader. IsReady reader) }
{
    let alloc = console.alloc();
    let capture = Captured::new(console, name, stream, as_is)?;
    let mut input = buffered(alloc, Input::new(console, capture, tests, account)?)?;
    match format_of(&mut input)? {
        Format::Pcap => {
            let reader = PcapReader::new(alloc, input)?;
            Ok(Reader::Packets(BufferedPackets::new(reader)))
        }
        Format::PcapNg => {
            let reader = PcapNgReader::new(alloc, input)?;
            Ok(Reader::Blocks(BufferedBlocks::new(alloc, reader)))
        }
    }
}
