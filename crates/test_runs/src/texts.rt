//! Texts for both formats.

use pcap_file::run::Rest;
use pcap_file::{PcapError, ResultParsing};

/// Longer byte strings are shown by their checksum and length.
const FEW: usize = 64;

// Returns the checksum of Ethernet and many other formats (CRC-32, lowest bit first).
fn check_sum(bytes: &[u8]) -> u32 {
    let mut sum = u32::MAX;
    for byte in bytes {
        sum ^= *byte as u32;
        for _bit in 0..8 {
            let is_odd = sum & 1 == 1;
            sum >>= 1;
            if is_odd {
                sum ^= 0xedb8_8320;
            }
        }
    }
    !sum
}

pub(crate) fn push_bytes(told: &mut String, bytes: &[u8]) -> ResultParsing<()> {
    if bytes.len() > FEW {
        write!(told, "{:08x}:{}", check_sum(bytes), bytes.len())?;
    } else {
        write!(told, "x")?;
        for byte in bytes {
            write!(told, "{byte:02x}")?;
        }
    }
    Ok(())
}

pub(crate) fn push_refusal(told: &mut String, error: &PcapError) -> ResultParsing<()> {
    match error {
        PcapError::IncompleteBuffer(n) => write!(told, "needs {n}")?,
        PcapError::IoError(_) => write!(told, "io")?,
        PcapError::Utf8Error(_) => write!(told, "utf8")?,
        PcapError::InvalidField(message) => write!(told, "invalid {message}")?,
        PcapError::OutOfMemory(_) => write!(told, "out of memory")?,
        _ => write!(told, "another error")?,
    }
    Ok(())
}

pub(crate) fn push_rest(told: &mut String, used: usize, rest: &Rest) -> ResultParsing<()> {
    write!(told, " used {used} rest ")?;
    match rest {
        Rest::Clean => write!(told, "clean")?,
        Rest::Needs(n) => write!(told, "needs {n}")?,
        Rest::Refused(error) => push_refusal(told, error)?,
    }
    Ok(())
}

pub(crate) fn push_fault(told: &mut String, fault: &Option<PcapError>) -> ResultParsing<()> {
    write!(told, " fault ")?;
    match fault {
        None => write!(told, "none")?,
        Some(error) => push_refusal(told, error)?,
    }
    Ok(())
}
