//! The word `blocks` on inputs and outputs in memory. `runs` describes the rows.

use crate::runs::every_run;
use std::test::*;

/// Blocks after a big-endian section header. Then captures that are refused or end in their first block.
const BLOCKS: &str = "
    blocks | section | => section big 1.0; => 0
    blocks | section 00000006 0000000c 0000000c 000000ff 0000000c 0000000c | => section big 1.0;1 enhanced 12 refused;2 unknown:255 12 ok; => 0
    blocks | section 00000006 00000028 0000000000000000000000000000000000000000 0bac 0003 616263 00 00000028 00000006 00000028 0000000000000000000000000000000000000000 0001 0001 ff 000000 00000028 | => section big 1.0;1 enhanced 40 refused;2 enhanced 40 refused; => 0
    blocks | section 00000001 00000014 0001 0000 00040000 00000014 0a0d0d0a 1c000000 4d3c2b1a 0100 0000 ffffffffffffffff 1c000000 01000000 14000000 0100 0000 00000400 14000000 | => section big 1.0;1 interface 20 ok;2 section 28 ok;3 interface 20 ok; => 0
    blocks | section 00000002 00000020 0001 0002 00000000 00000005 00000000 00000000 00000020 00000003 00000010 00000001 00000010 00000004 00000010 0000 0000 00000010 | => section big 1.0;1 packet 32 ok;2 simple 16 ok;3 names 16 ok; => 0
    blocks | section 00000005 00000018 00000001 00000002 00000003 00000018 00000009 0000000c 0000000c ffffffff 00000010 aabbccdd 00000010 | => section big 1.0;1 statistics 24 ok;2 journal 12 ok;3 unknown:4294967295 16 ok; => 0
    blocks | section 00000002 0000000c 0000000c 00000003 0000000c 0000000c 00000004 0000000c 0000000c 00000005 0000000c 0000000c | => section big 1.0;1 packet 12 refused;2 simple 12 refused;3 names 12 refused;4 statistics 12 refused; => 0
    blocks | section 000000ff 0000000c 0000000c 000000ff 0000000d 00000000 | => section big 1.0;1 unknown:255 12 ok; => 1 capcopy: Invalid field value: Block: (initial_len % 4) != 0
    blocks | section 000000ff 0000000c 0000000c 00000001 0000000c 0000000c | => section big 1.0;1 unknown:255 12 ok; => 1 capcopy: Invalid field value: InterfaceDescriptionBlock: block length < 8
    blocks | section 00000001 0000001c 0001 0000 00040000 0002 0001 ff 000000 0000001c | => section big 1.0; => 1 capcopy: UTF8 error
    blocks | section 00000001 0000001c 0001 0000 00040000 0bac 0003 616263 00 0000001c | => section big 1.0; => 3 UnexpectedEof capcopy: input or output failed or ended early
    blocks | section 000000ff 0000000c 0000000c 000000ff fffffffc 00000000 | => section big 1.0;1 unknown:255 12 ok; => 3 UnexpectedEof capcopy: input or output failed or ended early
    blocks | section 000000ff 0000000c 0000000c 00 | => section big 1.0;1 unknown:255 12 ok; => 3 UnexpectedEof capcopy: input or output failed or ended early
    blocks | | room=16 step=7 => => 3 UnexpectedEof capcopy: input or output failed or ended early
    blocks | 0a0d0d0a 0000001c 1a2b3c4d 0001 | room=16 step=7 => => 3 UnexpectedEof capcopy: input or output failed or ended early
    blocks | 00000001 00000014 0001 0000 00040000 00000014 | room=16 step=7 => => 1 capcopy: Invalid field value: SectionHeader missing
    blocks | 0a0d0d0a 0000000c 1a2b3c4d | room=16 step=7 => => 1 capcopy: Invalid field value: Block initial_length != trailer_length
    blocks | a1b2c3d4 0002 0004 00000000 00000000 0000ffff 00000001 | room=16 step=7 => => 3 UnexpectedEof capcopy: input or output failed or ended early
    blocks | a1b2c3d4 0002 0005 00000000 00000000 0000ffff 00000001 | room=16 step=7 => => 1 capcopy: Invalid field value: Block: (initial_len % 4) != 0
";

#[test]
fn blocks(rt: HostRuntime) -> Result<(), Fail> {
    every_run(rt.alloc(), BLOCKS)
}

/// Runs that may write at most `most` lines after that of the section.
const MOST_BLOCKS: &str = "
    blocks | sections | most=0 => section big 1.0; => 1 after 28 bytes and 0 ends capcopy: limit reached
    blocks | sections | most=1 => section big 1.0;1 interface 20 ok; => 1 after 48 bytes and 0 ends capcopy: limit reached
    blocks | sections | most=3 => section big 1.0;1 interface 20 ok;2 section 28 ok;3 interface 20 ok; => 1 after 96 bytes and 0 ends capcopy: limit reached
";

#[test]
fn most_blocks(rt: HostRuntime) -> Result<(), Fail> {
    every_run(rt.alloc(), MOST_BLOCKS)
}
