//! Runs over a PcapNg capture that shows exactly the bytes that the parser requests.

ghost use Rattle.std.specs.Prelude.{◌≡◌, ◌⊎◌, All, IfOk, IfErr, drop};
ghost use Rattle.pcap_core.specs.Answer.{Refuses, lacks, faulty};
ghost use Rattle.pcap_core.specs.Bytes.{IsBorrowed};
ghost use Rattle.pcap_core.specs.Errors.{IsMemory};
ghost use Rattle.pcap_items.specs.Found.{FoundBefore};
ghost use Rattle.pcap_items.specs.Requested.{AsksItem};
ghost use Rattle.pcap_items.specs.Window.{bytes_of, shown_of, requests_made};
ghost use Rattle.pcap_ng.specs.Blocks.{block_format, MayGrow};
ghost use Rattle.pcap_ng.specs.Exact.{AsksFirst, IsExact};
ghost use Rattle.pcap_ng.specs.Opening.{OpeningSays};
ghost use Rattle.pcap_ng.specs.Parser.{state_of};
ghost use Rattle.pcap_ng.specs.State.{opening};

use crate::pcapng::PcapNgParser;
use crate::run::NgRun;
use crate::run::find::find_first;
use pcap_core::{PcapError, ResultParsing};
use pcap_items::Rest;
use pcap_items::run::{Found, Window, show_items};
use std::alloc::{AllocError, Global};

/// Parses the bytes of a window that has shown none yet, showing bytes only when the parser requests them, and counts the
/// requests. The blocks' bodies are lent from the bytes.
///
/// The format determines the requests: 12 bytes for the head of each block, including the first, and then the rest of its total
/// length ('General Block Structure'). If fewer bytes are left than the parser requests, it isn't called again, and the rest is
/// `Needs` of the difference. After the last block there is no request.
///
/// Returns the errors of `PcapNgParser::new` for the first block, with `IncompleteBuffer` if it is truncated; then the requests
/// are those for that block alone. Returns `OutOfMemory` wherever something can't grow; the number of bytes shown is then
/// unspecified.
pub fn exact_pcapng<'a>(alloc: Global, window: &mut Window<'a>) -> ResultParsing<(NgRun<'a>, u64)>
    requires { shown_of window.old ≡ 0 }
    ensures bytes { bytes_of window.new ≡ bytes_of window.old }
    ensures run { IfOk result (λ x. IsExact x.0 x.1 (bytes_of window.old) (requests_made window.old) (requests_made window.new)) }
    ensures borrowed { IfOk result (λ x. All (λ block. IsBorrowed block.body) x.0.blocks.items) }
    ensures asked { IfErr result (λ e. IsMemory e ⊎ AsksFirst (bytes_of window.old) (requests_made window.old) (requests_made window.new)) }
    ensures refused { IfErr result (Refuses (MayGrow opening (bytes_of window.old))
        (λ n. OpeningSays (bytes_of window.old) (lacks n)) (λ fault. OpeningSays (bytes_of window.old) (faulty fault))) }
{
    let mut requests = 0;
    match show_first(alloc, window, &mut requests)? {
        Found::Item(mut parser) => {
            let run = show_items(alloc, &mut parser, window, &mut requests)?;
            let run = NgRun {
                blocks: run.items,
                parser,
                used: run.used,
                rest: Rest::from(run.ended),
            };
            Ok((run, requests))
        }
        Found::Needs(n) => Err(PcapError::IncompleteBuffer(n)),
        Found::Refused(e) => Err(e),
    }
}

// Shows the bytes that the parser requests for the first block, and counts the requests.
fn show_first(
    alloc: Global,
    window: &mut Window<'_>,
    requests: &mut u64,
) -> Result<Found<PcapNgParser, PcapError>, AllocError>
    requires none { shown_of window.old ≡ 0 }
    requires first { requests.old ≡ 0 }
    ensures bytes { bytes_of window.new ≡ bytes_of window.old }
    ensures asked { IfOk result
        (λ found. AsksItem block_format opening (bytes_of window.old) (requests_made window.old) (requests_made window.new) 0 requests.new) }
    ensures found { IfOk result (FoundBefore (OpeningSays (bytes_of window.old)) state_of (drop (shown_of window.new) (bytes_of window.old))) }
    ensures memory { IfErr result (λ _. MayGrow opening (bytes_of window.old)) }
{
    'asking: loop {
        match find_first(alloc, window.seen())? {
            Found::Item((_, parser)) => return Ok(Found::Item(parser)),
            Found::Needs(n) => {
                let shown = window.ask(n);
                *requests += 1;
                if shown < n {
                    return Ok(Found::Needs(n - shown));
                }
            }
            Found::Refused(e) => return Ok(Found::Refused(e)),
        }
    }
}
