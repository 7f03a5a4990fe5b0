//! A walk over the blocks of a capture that keeps the places of what is in force.

ghost use Rattle.pcap_core.specs.Answer.{Refuses, whole, lacks, faulty};
ghost use Rattle.pcap_core.specs.Errors.{IsMemory};
ghost use Rattle.pcap_ng.specs.Blocks.{Item, BlockSays, block_format};
ghost use Rattle.pcap_ng.specs.Parser.{state_of};
ghost use Rattle.pcap_parts.specs.NgParts.{GoesOn, IsWalked};
ghost use Rattle.pcap_parts.specs.Parts.{Passes};
ghost use Rattle.pcap_parts.specs.Places.{IsPlaced};
ghost use Rattle.std.specs.Prelude.{◌≡◌, ◌≤◌, ◌+◌, ◌⊎◌, ⊤, length, drop, IfOk, IfErr, IfNone};

use crate::skip::{Passed, rest_of_all};
use pcap_blocks::BlockType;
use pcap_core::ResultParsing;
use pcap_items::rest_or_memory;
use pcap_ng::pcapng::PcapNgParser;
use std::alloc::AllocError;

// The parser of a walk, and the places of the blocks that put its state in force.
#[derive(Drop)]
pub(crate) struct Walk {
    pub(crate) parser: PcapNgParser,
    // The place of the section header in force.
    pub(crate) header: usize,
    // The places of the interface descriptions that the walk has skipped.
    pub(crate) interfaces: Vec<usize>,
    // The number of these interface descriptions before the section in force.
    pub(crate) first: usize,
}

impl Walk {
    // Skips the first block of what is left of a capture, and keeps its place if it puts something in force.
    fn pass<'a>(&mut self, bytes: &[u8], left: &'a [u8]) -> ResultParsing<&'a [u8]>
        requires walked { IsWalked bytes.now left.now (state_of self.old.parser) self.old.header (drop self.old.first self.old.interfaces.items) }
        requires within { self.old.first ≤ length self.old.interfaces.items }
        requires placed { IsPlaced bytes.now left.now (state_of self.old.parser) self.old.header self.old.first self.old.interfaces.items }
        ensures walked { IfOk result
            (λ after. IsWalked bytes.now after.now (state_of self.new.parser) self.new.header (drop self.new.first self.new.interfaces.items)) }
        ensures within { IfOk result (λ _. self.new.first ≤ length self.new.interfaces.items) }
        ensures placed { IfOk result
            (λ after. IsPlaced bytes.now after.now (state_of self.new.parser) self.new.header self.new.first self.new.interfaces.items) }
        ensures stays { IfErr result
            (λ error. IsMemory error ⊎ IsPlaced bytes.now left.now (state_of self.new.parser) self.new.header self.new.first self.new.interfaces.items) }
        ensures goes_on { GoesOn self.old.interfaces.items self.new.interfaces.items }
        ensures passes { IfOk result
            (λ after. (item : Item) × BlockSays (state_of self.old.parser) left.now (whole item after.now) × (item.after ≡ state_of self.new.parser)) }
        ensures refused { IfErr result
            (Refuses ⊤ (λ n. BlockSays (state_of self.old.parser) left.now (lacks n)) (λ fault. BlockSays (state_of self.old.parser) left.now (faulty fault))) }
    {
        let place = bytes.len() - left.len();
        let (after, block) = self.parser.next_block(left)?;
        match block.type_ {
            BlockType::SectionHeader => {
                self.header = place;
                self.first = self.interfaces.len();
                Ok(after)
            }
            BlockType::InterfaceDescription => {
                self.interfaces.push(place)?;
                Ok(after)
            }
            _ => Ok(after),
        }
    }

    // Skips whole blocks, up to the first boundary at which at least `at_least` bytes are skipped, or all whole blocks.
    pub(crate) fn skip<'a>(
        &mut self,
        bytes: &[u8],
        slice: &'a [u8],
        at_least: usize,
    ) -> Result<Passed<'a>, AllocError>
        requires walked { IsWalked bytes.now slice.now (state_of self.old.parser) self.old.header (drop self.old.first self.old.interfaces.items) }
        requires within { self.old.first ≤ length self.old.interfaces.items }
        requires placed { IsPlaced bytes.now slice.now (state_of self.old.parser) self.old.header self.old.first self.old.interfaces.items }
        ensures walked { IfOk result
            (λ x. IfNone x.rest (IsWalked bytes.now x.after.now (state_of self.new.parser) self.new.header (drop self.new.first self.new.interfaces.items))) }
        ensures within { IfOk result (λ x. IfNone x.rest (self.new.first ≤ length self.new.interfaces.items)) }
        ensures placed { IfOk result (λ x. IsPlaced bytes.now x.after.now (state_of self.new.parser) self.new.header self.new.first self.new.interfaces.items) }
        ensures goes_on { GoesOn self.old.interfaces.items self.new.interfaces.items }
        ensures passes { IfOk result (λ x. Passes block_format (state_of self.old.parser) slice.now x.after.now at_least x.items x.rest) }
        ensures few { IfOk result (λ x. x.items + length x.after.now ≤ length slice.now) }
    {
        let most_left = slice.len().saturating_sub(at_least);
        let mut items = 0;
        let mut after = slice;
        while after.len() > most_left {
            match self.pass(bytes, after) {
                Ok(next) => {
                    after = next;
                    items += 1;
                }
                Err(error) => {
                    return Ok(Passed {
                        items,
                        after,
                        rest: Some(rest_or_memory(error)?),
                    });
                }
            }
        }
        Ok(Passed {
            items,
            after,
            rest: rest_of_all(slice.len(), at_least),
        })
    }
}
