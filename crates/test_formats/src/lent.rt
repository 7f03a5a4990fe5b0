//! The items of a log in a slice, which lend their bytes from it.

ghost use Rattle.std.specs.Prelude.{◌≡◌, ℕ, map, IfErr, IfOk};
ghost use Rattle.pcap_items.specs.Items.{GrowsIn, RunsTo};
ghost use Rattle.test_formats.specs.Samples.{Item, item_of, sample_format, size_after, fault_of};

use crate::samples::{Head, LogFault, SamplesOf, head_in, head_len};
use pcap_items::run::{Found, ItemRun, Items, parse_items};
use std::alloc::{AllocError, Global};

/// An item of a log, with the bytes after its head.
#[derive(Clone, Copy)]
pub struct Lent<'a> {
    /// What its head says.
    pub head: Head,
    /// The bytes after its head.
    pub bytes: &'a [u8],
}

// Returns the size of the samples after such a head.
fn after_head(size: u16, head: Head) -> u16
    ensures { result ≡ size_after size head }
{
    match head {
        Head::Size(n) => n,
        Head::Sample(_) => size,
    }
}

impl<'a> Items<'a> for SamplesOf {
    type Item = Lent<'a>;

    type Refusal = LogFault;

    ghost State = { ℕ };

    ghost Value = { Item };

    ghost Part = { Item };

    ghost format = { sample_format };

    ghost state = { λ samples. samples.size };

    ghost part = { λ item. item };

    ghost view = { item_of };

    ghost lent = { λ _. Unit {0} };

    ghost shows = { λ told fault. fault ≡ fault_of told };

    ghost grows = { λ _ _. ⊥ };

    fn next_item(
        &mut self,
        slice: &'a [u8],
    ) -> Result<Found<(&'a [u8], Lent<'a>), LogFault>, AllocError> {
        let len = head_len(self.size);
        if slice.len() < len {
            return Ok(Found::Needs(len - slice.len()));
        }
        let (front, after) = slice.split_at(len);
        match head_in(self.size, front) {
            Err(fault) => Ok(Found::Refused(fault)),
            Ok((_, n)) if after.len() < n => Ok(Found::Needs(n - after.len())),
            Ok((head, n)) => {
                let (bytes, after) = after.split_at(n);
                self.size = after_head(self.size, head);
                Ok(Found::Item((after, Lent { head, bytes })))
            }
        }
    }
}

/// Parses all items at the front of a log, and reports what follows them. Samples have the size that the items before them set.
///
/// It returns an `AllocError` only if the list of items can't be held.
pub fn parse_log<'a>(
    alloc: Global,
    samples: &mut SamplesOf,
    log: &'a [u8],
) -> Result<ItemRun<Lent<'a>, LogFault>, AllocError>
    ensures front { IfOk result (λ run. RunsTo sample_format (λ item. item) (λ told fault. fault ≡ fault_of told) samples.old.size samples.new.size (map item_of run.items.items) log.now
        run.used run.ended) }
    ensures memory { IfErr result (λ _. GrowsIn sample_format (λ _ _. ⊥) samples.old.size log.now) }
{
    parse_items(alloc, samples, log)
}
