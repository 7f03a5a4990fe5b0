//! Blocks that are held one by one, read from an input that the caller keeps.

ghost use Rattle.std.specs.Prelude.{◌≡◌, false, [], IfOk, IfErr, OnErr, OnOk};
ghost use Rattle.pcap_items.specs.Reading.{Pulls, TakesAsked};
ghost use Rattle.pcap_items.specs.Lent.{HoldsText, TakesText};
ghost use Rattle.pcap_ng.specs.Ahead.{state_of, text_of};
ghost use Rattle.pcap_ng.specs.Blocks.{block_format};
ghost use Rattle.pcap_ng.specs.Lent.{held_item};
ghost use Rattle.pcap_ng.specs.Opening.{OpeningSays, RefusesOpening};
ghost use Rattle.pcap_ng.specs.State.{order_at};

use crate::pcapng::block_header::BlockHeader;
use crate::pcapng::state::InForce;
use crate::pcapng::taking::{hold, open};
use pcap_core::{Endianness, ResultParsing};
use pcap_items::stream::Held;
use std::alloc::Global;
use std::io::Read;

/// The section and interfaces in force in a capture, and the block that is held.
#[derive(Drop)]
pub struct BlocksAhead {
    alloc: Global,
    in_force: InForce,
    held: Held,
}

impl BlocksAhead {
    /// Reads the first block of an input and holds it; the blocks after it come next.
    pub fn open<R: Read>(
        alloc: Global,
        input: &mut R,
        has_failed: &mut bool,
    ) -> ResultParsing<BlocksAhead>
        requires { has_failed.old ≡ false }
        ensures takes { IfOk result
            (λ blocks. TakesText OpeningSays (R.remaining input.old) (R.remaining input.new) (text_of blocks) (state_of blocks)) }
        ensures refused { IfErr result (RefusesOpening (R.remaining input.old)) }
        ensures asked { OnErr result (TakesAsked OpeningSays (R.remaining input.old) (R.remaining input.new)) }
        ensures unfailed { OnOk result (has_failed.new ≡ false) }
    {
        let mut held = Held::new(alloc);
        let in_force = open(alloc, input, has_failed, &mut held)?;
        Ok(BlocksAhead {
            alloc,
            in_force,
            held,
        })
    }

    /// Holds the next block, puts it in force if it is a section header or an interface description, and returns its header.
    pub fn hold_next<R: Read>(
        &mut self,
        input: &mut R,
        has_failed: &mut bool,
    ) -> ResultParsing<Option<BlockHeader>>
        requires between { text_of self.old ≡ [] }
        requires unfailed { has_failed.old ≡ false }
        ensures pulls { Pulls (block_format.says (state_of self.old)) (held_item (state_of self.new) (text_of self.new))
            (R.remaining input.old) (R.remaining input.new) has_failed.new result }
        ensures text { HoldsText (block_format.says (state_of self.old)) (held_item (state_of self.new) (text_of self.new))
            (R.remaining input.old) (R.remaining input.new) (text_of self.new) result }
    {
        hold(
            self.alloc,
            &mut self.in_force,
            input,
            has_failed,
            &mut self.held,
        )
    }

    /// Returns the bytes of the block that is held.
    pub fn text(&self) -> &[u8]
        ensures { result.now ≡ text_of self.now }
    {
        self.held.as_slice()
    }

    /// Releases the bytes that are held.
    pub fn clear(&mut self)
        ensures text { text_of self.new ≡ [] }
        ensures state { state_of self.new ≡ state_of self.old }
    {
        self.held.clear();
    }

    /// Returns the byte order of the next block's numbers if that block is not a section header.
    pub fn order(&self) -> Endianness
        ensures { result ≡ order_at (state_of self.now) }
    {
        self.in_force.order()
    }
}
