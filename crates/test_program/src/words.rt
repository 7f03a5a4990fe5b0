//! The words `list` and `copy` on inputs and outputs in memory, and unknown words. `runs` describes the rows.

use crate::runs::{every_run, every_run_below, every_run_of};
use std::test::*;

/// Whole and torn captures.
const LISTS: &str = "
    list | big | => 1 1335958313.152630000 98/98; => 0
    list | little | => 1 1331901000.000000000 117/117; => 0
    list | big ..0 | => => 3 UnexpectedEof capcopy: input or output failed or ended early
    list | big ..10 | => => 3 UnexpectedEof capcopy: input or output failed or ended early
    list | big ..40 | => => 3 UnexpectedEof capcopy: input or output failed or ended early
    list | big ..137 | => => 3 UnexpectedEof capcopy: input or output failed or ended early
";

#[test]
fn lists(rt: HostRuntime) -> Result<(), Fail> {
    every_run(rt.alloc(), LISTS)
}

/// Three packets of no, five and one byte, at 1, 2 and 3 seconds. `#` is the size of the input's buffer.
const CUTS: &str = "
    list | a1b23c4d 00020004 00000000 00000000 0000ffff 00000001 00000001 000003e7 00000000 00000000 00000002 00000000 00000005 00000005 0102030405 00000003 00000007 00000001 00000009 06 | room=# step=7 => 1 1.000000999 0/0;2 2.000000000 5/5;3 3.000000007 1/9; => 0
    list | a1b23c4d 00020004 00000000 00000000 0000ffff 00000001 00000001 000003e7 00000000 00000000 00000002 00000000 00000005 00000005 0102030405 00000003 00000007 00000001 00000009 06 | room=# step=1000 => 1 1.000000999 0/0;2 2.000000000 5/5;3 3.000000007 1/9; => 0
";

#[test]
fn lists_at_each_cut(rt: HostRuntime) -> Result<(), Fail> {
    every_run_below(rt.alloc(), CUTS, 80)
}

/// A list of one line, with and without bytes after the packet.
const MOST_LINES: &str = "
    list | big ffffffffffffffffffffffffffffffff | most=1 => 1 1335958313.152630000 98/98; => 1 after 138 bytes and 0 ends capcopy: limit reached
    list | big | most=1 => 1 1335958313.152630000 98/98; => 1 after 138 bytes and 0 ends capcopy: limit reached
";

#[test]
fn most_lines(rt: HostRuntime) -> Result<(), Fail> {
    every_run(rt.alloc(), MOST_LINES)
}

const MOST_COPIES: &str = "
    copy | big | most=1 => big => 1 after 138 bytes and 0 ends capcopy: limit reached
    copy big micro | big | most=1 => big => 1 after 138 bytes and 0 ends capcopy: limit reached
";

#[test]
fn most_copies(rt: HostRuntime) -> Result<(), Fail> {
    every_run(rt.alloc(), MOST_COPIES)
}

const REFUSED_CAPTURES: &str = "
    list | big 00000001 00000000 00000002 00000001 | => 1 1335958313.152630000 98/98; => 1 capcopy: Invalid field value: PacketHeader incl_len > orig_len
";

#[test]
fn refused_captures(rt: HostRuntime) -> Result<(), Fail> {
    every_run(rt.alloc(), REFUSED_CAPTURES)
}

const WRONG_MAGIC: &str = "
    list | ffffffffffffffffffffffffffffffffffffffffffffffff | => => 1 capcopy: Invalid field value: PcapHeader wrong magic number
    copy | ffffffffffffffffffffffffffffffffffffffffffffffff | => => 1 capcopy: Invalid field value: PcapHeader wrong magic number
    copy big nano | ffffffffffffffffffffffffffffffffffffffffffffffff | => => 1 capcopy: Invalid field value: PcapHeader wrong magic number
";

#[test]
fn wrong_magic(rt: HostRuntime) -> Result<(), Fail> {
    every_run(rt.alloc(), WRONG_MAGIC)
}

/// Whole copies, and copies of at most one packet, which is all that there is. Then copies of torn captures.
const COPIES: &str = "
    copy | little | => little => 0
    copy | little | most=1 => little => 1 after 157 bytes and 0 ends capcopy: limit reached
    copy little nano | big | => little_nano => 0
    copy little nano | big | most=1 => little_nano => 1 after 138 bytes and 0 ends capcopy: limit reached
    copy big micro | little_nano | => big => 0
    copy big micro | little_nano | most=1 => big => 1 after 138 bytes and 0 ends capcopy: limit reached
    copy big micro | a1b23c4d 00020004 00000000 00000000 0000ffff 00000001 00000001 000003e7 00000000 00000000 | => a1b2c3d4 00020004 00000000 00000000 0000ffff 00000001 00000001 00000000 00000000 00000000 => 0
    copy big micro | a1b23c4d 00020004 00000000 00000000 0000ffff 00000001 00000001 000003e7 00000000 00000000 | most=1 => a1b2c3d4 00020004 00000000 00000000 0000ffff 00000001 00000001 00000000 00000000 00000000 => 1 after 40 bytes and 0 ends capcopy: limit reached
    copy | big ..0 | => => 3 UnexpectedEof capcopy: input or output failed or ended early
    copy | big ..10 | => => 3 UnexpectedEof capcopy: input or output failed or ended early
    copy | big ..40 | => big ..24 => 3 UnexpectedEof capcopy: input or output failed or ended early
    copy | big ..137 | => big ..24 => 3 UnexpectedEof capcopy: input or output failed or ended early
";

#[test]
fn copies(rt: HostRuntime) -> Result<(), Fail> {
    every_run(rt.alloc(), COPIES)
}

/// A packet of 262144 bytes, which `#` stands for.
const LARGEST: &str = "
    list | a1b2c3d4 00020004 00000000 00000000 0000ffff 00000001 00000001 00000002 00040000 00040000 # | => 1 1.000002000 262144/262144; => 0
    copy | a1b2c3d4 00020004 00000000 00000000 0000ffff 00000001 00000001 00000002 00040000 00040000 # | => a1b2c3d4 00020004 00000000 00000000 0000ffff 00000001 00000001 00000002 00040000 00040000 # => 0
";

#[test]
fn largest_packet(rt: HostRuntime) -> Result<(), Fail> {
    let contents = "07".repeat(rt.alloc(), 262_144)?;
    every_run_of(rt.alloc(), LARGEST, contents.as_str())
}

/// Words that select no action. The input isn't read.
const USAGE: &str = "
    | big | => => 2 after 0 reads usage: capcopy list | copy [big|little micro|nano] | blocks
    copy big | big | => => 2 after 0 reads usage: capcopy list | copy [big|little micro|nano] | blocks
    copy nano | big | => => 2 after 0 reads usage: capcopy list | copy [big|little micro|nano] | blocks
    copy nano big | big | => => 2 after 0 reads usage: capcopy list | copy [big|little micro|nano] | blocks
    list list | big | => => 2 after 0 reads usage: capcopy list | copy [big|little micro|nano] | blocks
    lists | big | => => 2 after 0 reads usage: capcopy list | copy [big|little micro|nano] | blocks
    block | big | => => 2 after 0 reads usage: capcopy list | copy [big|little micro|nano] | blocks
    blocks list | big | => => 2 after 0 reads usage: capcopy list | copy [big|little micro|nano] | blocks
";

#[test]
fn usage(rt: HostRuntime) -> Result<(), Fail> {
    every_run(rt.alloc(), USAGE)
}
