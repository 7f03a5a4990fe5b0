//! Code shared by the programs that repeat one library call so that its instructions can be counted: `PROGRAM CALL PASSES < bytes`.

use pcap_core::ResultParsing;
use std::env;
use std::io::{self, ErrorKind, Read};

/// The arguments and input of such a program.
#[derive(Drop)]
pub struct Asked {
    /// The name of the call.
    pub call: String,
    /// How often the call is made over the bytes.
    pub passes: u64,
    /// The standard input.
    pub bytes: Vec<u8>,
}

fn unknown(message: &'static str) -> io::Error {
    io::Error::new(ErrorKind::InvalidInput, message)
}

impl Asked {
    /// Reads the arguments of the program, and all bytes of its standard input.
    pub fn read(rt: &HostRuntime) -> io::Result<Asked> {
        let mut bytes = Vec::new(rt.alloc());
        rt.stdin().read_to_end(&mut bytes)?;
        let mut words = env::args(rt)?;
        let _program = words.next();
        let (Some(call), Some(passes)) = (words.next(), words.next()) else {
            return Err(unknown("two words are asked for: CALL PASSES"));
        };
        let Ok(passes) = passes.parse::<u64>() else {
            return Err(unknown("the passes are no number"));
        };
        Ok(Asked {
            call,
            passes,
            bytes,
        })
    }
}

/// Prints the sum over the values of all passes, which shows that no pass was left out, or why a call ended before its last pass.
pub fn tell(rt: &HostRuntime, sum: Option<ResultParsing<u64>>) -> io::Result<()> {
    match sum {
        Some(Ok(sum)) => println!(rt; "{sum}"),
        Some(Err(error)) => println!(rt; "{error}"),
        None => Err(unknown("no call has this name")),
    }
}

/// Expands to the sum over the values of all passes. It is a macro so that the counted calls belong to the function that uses it.
#[macro_export]
macro_rules! sum_of_passes {
    ($passes:ident $value:block) => {{
        let mut sum = 0u64;
        for _ in 0..$passes {
            sum = sum.wrapping_add($value);
        }
        Ok(sum)
    }};
}
