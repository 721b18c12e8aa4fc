//! Messages by their indices. `tests/program-checks` and `tests/mutations` have the packets that are read.

use crate::comparisons::holds;
use mold_wire::{Blocks, Body, decode};
use std::process::Abort;
use std::test::Fail;

fn expect_two(rt: &impl Abort, blocks: &Blocks<'_>) {
    let found = (blocks.get(0), blocks.get(1), blocks.get(2));
    holds(rt, found == (Some(b"AB"), Some(b""), None));
}

#[test]
fn messages_are_got_by_their_indices(rt: HostRuntime) -> Result<(), Fail> {
    let packet = decode(b"SESSION001\0\0\0\0\0\0\0\x01\0\x02\0\x02AB\0\0")?;
    match &packet.body {
        Body::Data(blocks) => expect_two(&rt, blocks),
        _ => holds(&rt, false),
    }
    Ok(())
}
