//! example_replay FACTOR < capture: prints each packet when its time has come, FACTOR times as fast as it was captured. At factor 0 it
//! doesn't wait.
#![tactic(auto)]

use anyhow::{Context, Result};
use pcap_file::PcapReader;
use std::io::BufReader;
use std::time::{Duration, Instant};
use std::{env, thread};

/// Returns the factor in the first argument.
fn factor(rt: &HostRuntime) -> Result<u32> {
    let word = env::args(rt)?.nth(1).context("which factor?")?;
    Ok(word.parse::<u32>().context("no such factor")?)
}

/// Sleeps until the time `due` has passed since the start.
fn sleep_until(rt: &HostRuntime, start: Instant, due: Duration) -> Result<()> {
    thread::sleep(rt, due.saturating_sub(start.elapsed(rt)?));
    Ok(())
}

fn main(rt: HostRuntime) -> Result<()> {
    let factor = factor(&rt)?;
    let input = BufReader::new(rt.alloc(), rt.stdin())?;
    let mut reader = PcapReader::new(rt.alloc(), input)?;
    let start = Instant::now(&rt)?;
    let mut first = None;
    for _ in 0..u64::MAX {
        let Some(header) = reader.next_header() else {
            break;
        };
        let header = header?;
        let time = header.timestamp();
        let since = time.saturating_sub(*first.get_or_insert(time));
        sleep_until(&rt, start, since.checked_div(factor).unwrap_or_default())?;
        println!(rt;
            "{}.{:09} {} bytes",
            since.as_secs(),
            since.subsec_nanos(),
            reader.data().len()
        )?;
    }
    Ok(())
}
