//! Tests that a gap on line A is requested, and that line B closes it.

use crate::{begin, hear};
use mold_receiver::{Arbiter, Batch, Line, Refusal};
use std::process::Abort;
use std::test::Fail;

/// A packet with message 1, which is `AB`, and message 2, which is empty.
const DATA: &[u8] = b"SESSION001\0\0\0\0\0\0\0\x01\0\x02\0\x02AB\0\0";

/// The end packet after two messages.
const END: &[u8] = b"SESSION001\0\0\0\0\0\0\0\x03\xff\xff";

/// A request for two messages, from 1 on.
const REQUEST: &[u8] = b"SESSION001\0\0\0\0\0\0\0\x01\0\x02";

fn holds(rt: &impl Abort, fact: bool) {
    assert!(rt; fact);
}

fn is_for_both(request: Option<[u8; 20]>) -> bool {
    match request {
        Some(bytes) => bytes.as_slice() == REQUEST,
        None => false,
    }
}

fn has_both(batch: &Batch) -> bool {
    batch.len() == 2
        && batch.get(0) == Some(b"AB".as_slice())
        && batch.get(1) == Some(b"".as_slice())
}

fn expect_closed(rt: &impl Abort, arbiter: &mut Arbiter, batch: &mut Batch) -> Result<(), Refusal> {
    let request = hear(arbiter, Line::A, END, batch)?;
    holds(rt, is_for_both(request) && batch.is_empty());
    let request = hear(arbiter, Line::B, DATA, batch)?;
    holds(rt, request.is_none() && has_both(batch));
    Ok(())
}

fn expect_with(rt: &(impl Abort + AllocGlobal), arbiter: &mut Arbiter) -> Result<(), Refusal> {
    expect_closed(rt, arbiter, &mut Batch::new(rt.alloc()))
}

#[test]
fn a_gap_is_asked_for_and_closed(rt: HostRuntime) -> Result<(), Fail> {
    let Some(mut arbiter) = begin(rt.alloc(), END) else {
        return Err(Fail::from("no arbiter"));
    };
    expect_with(&rt, &mut arbiter)?;
    Ok(())
}
