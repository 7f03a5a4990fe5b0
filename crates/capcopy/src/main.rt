//! Lists or copies the capture on standard input.
#![tactic(auto)]

mod help;
mod program;

use capcopy_run::Message;
use help::About;
use pcap_file::PcapError;
use pcap_program::Exit;
use std::io;
use std::io::ErrorKind;
use std::process::ExitCode;

/// The exit status when nobody reads the output any more: the one that a shell gives to a program ended by SIGPIPE.
const UNREAD: u8 = 141;

fn main(rt: HostRuntime) -> ExitCode {
    let exit = match About::asked_for(&rt) {
        Some(about) => exit_of(about.print(&rt)),
        None => program::run(&rt),
    };
    if is_unread(&exit) {
        return ExitCode::from(UNREAD);
    }
    if !matches!(exit, Exit::Done) {
        let message = Message(&exit);
        // If this write fails, there is nowhere left to report it.
        let _ = eprintln!(rt; "{message}");
    }
    ExitCode::from(exit.status())
}

// Returns the exit of a text about the program, which was printed or not.
fn exit_of(printed: io::Result<()>) -> Exit {
    match printed {
        Ok(()) => Exit::Done,
        Err(error) => Exit::from(error),
    }
}

// Returns whether nobody reads the output any more.
fn is_unread(exit: &Exit) -> bool {
    match exit {
        Exit::Io(PcapError::IoError(error)) => error.kind() == ErrorKind::BrokenPipe,
        _ => false,
    }
}
