//! The program on an input and an output that fail. `runs` describes the rows.

use crate::runs::{every_run, every_run_below};
use std::test::*;

/// Calls that fail after all of the input.
const INTERRUPTED_READS: &str = "
    list | big | step=1 fails_at=139 Interrupted => 1 1335958313.152630000 98/98; => 3 Interrupted capcopy: input or output failed or ended early
    copy | big | step=1 fails_at=139 Interrupted => big => 3 Interrupted capcopy: input or output failed or ended early
    blocks | sections | step=1 fails_at=97 Interrupted => section big 1.0;1 interface 20 ok;2 section 28 ok;3 interface 20 ok; => 3 Interrupted capcopy: input or output failed or ended early
";

#[test]
fn interrupted_reads(rt: HostRuntime) -> Result<(), Fail> {
    every_run(rt.alloc(), INTERRUPTED_READS)
}

/// Outputs with space for fewer bytes than the 29, 138 or 68 that the run has to write. `#` is that space. The run writes as many bytes.
const NARROW_LIST: &str = "
    list | big | room=40 space=# => 1 1335958313.152630000 98/98; ..# => 3 WriteZero capcopy: input or output failed or ended early
";

const NARROW_COPY: &str = "
    copy | big | room=40 space=# => big ..# => 3 WriteZero capcopy: input or output failed or ended early
";

const NARROW_BLOCKS: &str = "
    blocks | sections | room=40 space=# => section big 1.0;1 interface 20 ok;2 section 28 ok;3 interface 20 ok; ..# => 3 WriteZero capcopy: input or output failed or ended early
";

#[test]
fn narrow_outputs(rt: HostRuntime) -> Result<(), Fail> {
    every_run_below(rt.alloc(), NARROW_LIST, 29)?;
    every_run_below(rt.alloc(), NARROW_COPY, 138)?;
    every_run_below(rt.alloc(), NARROW_BLOCKS, 68)
}

/// Runs whose second read fails. The lines of the items that are whole in the first read are out before, although the output has a buffer.
const LINES_OUT: &str = "
    list | big a1b2c3d4 00020004 00000000 | room=65536 step=138 fails_at=2 buffered => 1 1335958313.152630000 98/98; => 3 Other capcopy: input or output failed or ended early
    list | big a1b2c3d4 00020004 00000000 | room=65536 step=150 fails_at=2 buffered => 1 1335958313.152630000 98/98; => 3 Other capcopy: input or output failed or ended early
    blocks | sections | room=65536 step=28 fails_at=2 buffered => section big 1.0; => 3 Other capcopy: input or output failed or ended early
    blocks | sections | room=65536 step=48 fails_at=2 buffered => section big 1.0;1 interface 20 ok; => 3 Other capcopy: input or output failed or ended early
    blocks | sections | room=65536 step=90 fails_at=2 buffered => section big 1.0;1 interface 20 ok;2 section 28 ok; => 3 Other capcopy: input or output failed or ended early
";

#[test]
fn lines_are_out_before_the_input_fails(rt: HostRuntime) -> Result<(), Fail> {
    every_run(rt.alloc(), LINES_OUT)
}
