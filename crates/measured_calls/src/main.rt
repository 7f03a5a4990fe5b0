//! Repeats one library call on the bytes of standard input, so that its instructions can be counted: `measured_calls CALL PASSES <
//! bytes`. The Rust crate has each of these calls too. Another call here changes the counts of the others.
#![tactic(auto)]

mod bodies;
mod captures;
mod pieces;

use pcap_classic::ResultParsing;
use std::alloc::Global;
use std::io;
use test_support::passes::{Asked, tell};

// Returns the sum over the values of all passes, or None if no call has this name.
fn passes_of(alloc: Global, call: &str, passes: u64, bytes: &[u8]) -> Option<ResultParsing<u64>> {
    if let Some(body) = bodies::named(call) {
        return Some(bodies::parse(alloc, body, passes, bytes));
    }
    if let Some(sum) = captures::passes_of(alloc, call, passes, bytes) {
        return Some(sum);
    }
    pieces::passes_of(alloc, call, passes, bytes)
}

fn main(rt: HostRuntime) -> io::Result<()> {
    let Asked {
        call,
        passes,
        bytes,
    } = Asked::read(&rt)?;
    tell(
        &rt,
        passes_of(rt.alloc(), call.as_str(), passes, bytes.as_slice()),
    )
}
