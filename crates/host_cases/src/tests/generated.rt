//! Runs of the generated script. Of N constructors it prints the double of the sum of the numbers from 1 to N.
//!
//! Its length: nine bytes and ten around the lines of the constructors, of which one with a number of D digits has 34 and two for each digit, and 25 and four
//! for each digit.

use super::host::{Failing, NONE_FAILS, call};
use script_host::Status;
use std::test::Fail;

// Words, the calls of files and sinks that fail, the status, and what both sinks hold.
struct Case(&'static str, Failing, Status, &'static str, &'static str);

static CASES: &[Case] = &[
    // 19 + 65
    Case(
        "--generate 1",
        NONE_FAILS,
        Status::Finished,
        "2\ngenerated 84 bytes\n",
        "",
    ),
    Case(
        "--generate 2",
        NONE_FAILS,
        Status::Finished,
        "6\ngenerated 149 bytes\n",
        "",
    ),
    Case(
        "--generate=2",
        NONE_FAILS,
        Status::Finished,
        "6\ngenerated 149 bytes\n",
        "",
    ),
    Case(
        "--generate 00000002",
        NONE_FAILS,
        Status::Finished,
        "6\ngenerated 149 bytes\n",
        "",
    ),
    Case(
        "--generate 2 --budget 1000",
        NONE_FAILS,
        Status::Finished,
        "6\ngenerated 149 bytes\n",
        "",
    ),
    Case(
        "--budget 1000 --generate 2",
        NONE_FAILS,
        Status::Finished,
        "6\ngenerated 149 bytes\n",
        "",
    ),
    // 19 + 9 * 65 + 71
    Case(
        "--generate 10",
        NONE_FAILS,
        Status::Finished,
        "110\ngenerated 675 bytes\n",
        "",
    ),
    // no file is asked for
    Case(
        "--generate 2",
        (1, 0, 0),
        Status::Finished,
        "6\ngenerated 149 bytes\n",
        "",
    ),
    // the first constructor alone takes more than ten turns; the line behind the run is written all the same
    Case(
        "--generate 2 --budget 10",
        NONE_FAILS,
        Status::BudgetEnded,
        "generated 149 bytes\n",
        "hcjs: budget ended\n",
    ),
    Case(
        "--generate 2 --budget 10",
        (0, 1, 0),
        Status::WriteFault,
        "generated ",
        "hcjs: cannot write\n",
    ),
    // the line of the script, the line behind it, and the flush fail
    Case(
        "--generate 2",
        (0, 1, 0),
        Status::WriteFault,
        "6",
        "hcjs: cannot write\n",
    ),
    Case(
        "--generate 2",
        (0, 2, 0),
        Status::WriteFault,
        "6\ngenerated ",
        "hcjs: cannot write\n",
    ),
    Case(
        "--generate 2",
        (0, 3, 0),
        Status::WriteFault,
        "6\ngenerated 149 bytes\n",
        "hcjs: cannot write\n",
    ),
];

#[test]
fn generated_scripts(rt: HostRuntime) -> Result<(), Fail> {
    for (number, case) in CASES.iter().enumerate() {
        let left = call(rt.alloc(), case.0, b"", case.1, case.3, case.4)?;
        assert_eq!(rt; left.status, case.2, "case {number}");
        assert!(rt; left.out, "output of case {number}");
        assert!(rt; left.err, "error output of case {number}");
    }
    Ok(())
}

#[test]
fn longest_generated_script(rt: HostRuntime) -> Result<(), Fail> {
    // 19 + 59 * 10,000 + 6 * (9 + 2 * 90 + 3 * 900 + 4 * 9,000 + 5)
    let left = call(
        rt.alloc(),
        "--generate 10000",
        b"",
        NONE_FAILS,
        "100010000\ngenerated 823383 bytes\n",
        "",
    )?;
    assert_eq!(rt; left.status, Status::Finished);
    assert!(rt; left.out && left.err);
    Ok(())
}
