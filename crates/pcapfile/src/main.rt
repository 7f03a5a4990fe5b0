//! The program `pcapfile`, for captures in files: `pcapfile --help` lists its words.
#![tactic(auto)]

mod arguments;
mod sizes;
mod task;

use arguments::read_arguments;
use clap::Error;
use clap::error::ErrorKind;
use pcapfile_command::words;
use pcapfile_command::words::Word;
use pcapfile_files::{
    Console, Shown, UNREAD, USAGE, keep_standard_streams, status_of, tell_misnamed,
};
use std::alloc::AllocError;
use std::io;
use std::io::IsTerminal;
use std::process::ExitCode;
use task::{Refusal, Task};

fn main(rt: HostRuntime) -> ExitCode {
    match run(&rt) {
        Ok(status) => ExitCode::from(status),
        Err(error) => {
            let status = status_of(&error);
            if status != UNREAD {
                // There is nowhere left to report that this write failed.
                let _ = eprintln!(rt; "pcapfile: {error}");
            }
            ExitCode::from(status)
        }
    }
}

// Reports an error in the arguments, or writes the help or version that they request, and returns the exit status.
fn tell_words(rt: &HostRuntime, error: &Error, words: &[String]) -> io::Result<u8> {
    if error.kind() == ErrorKind::OutOfMemory {
        return Err(io::Error::from(AllocError));
    }
    if !error.use_stderr() {
        error.print(rt)?;
        return Ok(0);
    }
    // The message is made from escaped arguments, so that none of their characters acts on a terminal.
    let shown = shown_words(rt, words)?;
    match words::command(rt.alloc())?.try_get_matches_from(shown.as_slice()) {
        Ok(_) => return tell_unknown(rt),
        Err(error) => error.print(rt)?,
    }
    Ok(USAGE)
}

fn shown_words(rt: &HostRuntime, words: &[String]) -> io::Result<Vec<String>> {
    let mut all = Vec::new(rt.alloc());
    for word in words {
        let shown = Shown(word.as_str());
        all.push(format!(in rt.alloc(); "{shown}")?)?;
    }
    Ok(all)
}

// Does what the arguments request, and returns the exit status.
fn run(rt: &HostRuntime) -> io::Result<u8> {
    keep_standard_streams(rt)?;
    let words = read_arguments(rt)?;
    let command = words::command(rt.alloc())?;
    let matches = match command.try_get_matches_from(words.as_slice()) {
        Ok(matches) => matches,
        Err(error) => return tell_words(rt, &error, words.as_slice()),
    };
    let Some((name, words)) = matches.subcommand() else {
        return tell_unknown(rt);
    };
    let Some(word) = Word::of_name(name) else {
        return tell_unknown(rt);
    };
    if word.reads_repaired() && words.get_flag(words::AS_IS) {
        eprintln!(rt;
            "pcapfile: '{name} --as-is' is now '{name} --repair', and will be removed in version 0.3"
        )?;
    }
    let task = match Task::new(rt, word, words) {
        Ok(task) => task,
        Err(refusal) => return tell_refusal(rt, name, refusal),
    };
    let is_told = rt.stdout().is_terminal() && task.tells_meanwhile();
    let console = Console::new(rt, is_told || matches.get_flag(words::QUIET))?;
    let status = task.run(&console)?;
    if let (0, Some((out, format))) = (status, task.misnamed()) {
        // The work is done. If this write fails, its message is lost.
        let _ = tell_misnamed(&console, out, format);
    }
    if console.has_fault() {
        tell_remedy(&console, &task);
    }
    Ok(status)
}

// Reports why a word's arguments make no task, and returns the exit status.
fn tell_refusal(rt: &HostRuntime, word: &str, refusal: Refusal) -> io::Result<u8> {
    match refusal {
        Refusal::OutOfMemory(error) => return Err(io::Error::from(error)),
        Refusal::Value(argument, forms) => eprintln!(rt;
            "error: the value of --{argument} is wrong; write it as {forms}"
        )?,
        Refusal::Twice => eprintln!(rt;
            "error: '-' is given twice, but standard input can be read only once"
        )?,
        Refusal::Zone => eprintln!(rt;
            "error: the system's time zone can't be read; set TZ, or give a time with its zone"
        )?,
    }
    eprintln!(rt; "For more information, try 'pcapfile {word} --help'.")?;
    Ok(USAGE)
}

// Reports how to read more of a truncated or malformed capture. A failed write of this message is ignored.
fn tell_remedy(console: &Console, task: &Task) {
    let Some(remedy) = task.remedy() else {
        return;
    };
    let _ = eprintln!(console.for_line(); "pcapfile: {remedy}");
}

// Reports that the arguments name no word of the program, and returns the exit status.
fn tell_unknown(rt: &HostRuntime) -> io::Result<u8> {
    eprintln!(rt; "error: unknown command; 'pcapfile --help' lists all commands")?;
    Ok(USAGE)
}
