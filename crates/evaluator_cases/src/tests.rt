//! Scripts with what they print, worked out by hand from the steps of the standard.

mod reading;
mod rows;
mod running;
mod serving;

use rows::{ROWS, TAKEN};
use running::printed_by;
use std::alloc::Global;
use std::test::Fail;

/// The number of the first row that prints something else.
fn first_other(alloc: Global) -> Result<Option<usize>, Fail> {
    for (number, row) in ROWS.iter().enumerate() {
        let printed = printed_by(alloc, row.0, 1000)?;
        if printed.as_slice() != row.1.as_bytes() {
            return Ok(Some(number));
        }
    }
    Ok(None)
}

#[test]
fn scripts_print(rt: HostRuntime) -> Result<(), Fail> {
    assert_eq!(rt; first_other(rt.alloc())?, None);
    Ok(())
}

/// The number of the first script that takes other turns: with one less it halts.
fn first_taking_others(alloc: Global) -> Result<Option<usize>, Fail> {
    for (number, row) in TAKEN.iter().enumerate() {
        let enough = printed_by(alloc, row.0, row.1)?;
        let fewer = printed_by(alloc, row.0, row.1.saturating_sub(1))?;
        if enough.as_slice() == b"halts".as_slice() || fewer.as_slice() != b"halts".as_slice() {
            return Ok(Some(number));
        }
    }
    Ok(None)
}

#[test]
fn scripts_take_turns(rt: HostRuntime) -> Result<(), Fail> {
    assert_eq!(rt; first_taking_others(rt.alloc())?, None);
    Ok(())
}
