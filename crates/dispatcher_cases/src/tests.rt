//! Requests with the lines that they print and how they end, worked out by hand from the steps of the standard and the rules of turns.

mod rows;
mod serving;

use rows::{ROWS, Row};
use serving::{empty_script, is_so};
use std::alloc::Global;
use std::test::Fail;

/// The first row that comes to something else.
fn first_wrong(alloc: Global, rows: &[Row]) -> Result<Option<usize>, Fail> {
    let script = empty_script(alloc)?;
    for (number, row) in rows.iter().enumerate() {
        if !is_so(alloc, &script, row)? {
            return Ok(Some(number));
        }
    }
    Ok(None)
}

#[test]
fn requests_come_to_their_ends(rt: HostRuntime) -> Result<(), Fail> {
    assert_eq!(rt; first_wrong(rt.alloc(), &ROWS)?, None);
    Ok(())
}
