//! Tests of lenient reading, of finding packets and blocks after corrupt bytes, and of mending blocks. The small captures and lists were
//! written by hand, with one packet or a few bytes made wrong.
#![tactic(auto)]

#[cfg(test)]
mod again;
#[cfg(test)]
mod again_rows;
#[cfg(test)]
mod block_copies;
#[cfg(test)]
mod block_rows;
#[cfg(test)]
mod block_runs;
#[cfg(test)]
mod block_streams;
#[cfg(test)]
mod blocks;
#[cfg(test)]
mod blocks_again;
#[cfg(test)]
mod bodies;
#[cfg(test)]
mod copies;
#[cfg(test)]
mod gaps;
#[cfg(test)]
mod mending;
#[cfg(test)]
mod packets;
#[cfg(test)]
mod pieces;
#[cfg(test)]
mod run_rows;
#[cfg(test)]
mod runs;
#[cfg(test)]
mod streams;
#[cfg(test)]
mod tables;
#[cfg(test)]
mod told;
