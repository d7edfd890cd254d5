//! The words of the command: which are taken, and what they order.
//!
//! `print(1); ;` takes seven turns, and the line is written behind the sixth (`budgets.rt` counts them), so with six turns it halts behind the line.

use super::host::{NONE_FAILS, call, call_with};
use hc_outside::{Text, text};
use script_host::Status;
use std::alloc::Global;
use std::test::Fail;

const SCRIPT: &[u8] = b"print(1); ;";

const USAGE: &str = "hcjs: usage: hcjs [--budget N] [--generate N] [FILE]\n";

// The file runs to its end.
static TAKEN: &[&str] = &[
    "x.js",
    "--budget 7 x.js",
    "x.js --budget 7",
    "--budget=7 x.js",
    "x.js --budget=7",
    "--budget 07 x.js",
    "--budget 00000007 x.js",
    "--budget 10000000 x.js",
    "--budget 9999999 x.js",
    "-- x.js",
    "x.js --",
    "--budget 7 -- x.js",
];

// The turns come to their end behind the line.
static HALTED: &[&str] = &[
    "--budget 6 x.js",
    "x.js --budget 6",
    "--budget=6 x.js",
    "--budget 00000006 x.js",
    "--budget 6 -- x.js",
];

// Words that are no order.
static REFUSED: &[&str] = &[
    "",
    // the number of turns
    "--budget 0 x.js",
    "--budget 00000000 x.js",
    "--budget 10000001 x.js",
    "--budget 99999999 x.js",
    "--budget 000000007 x.js",
    "--budget 100000000 x.js",
    "--budget 4294967303 x.js",
    "--budget 18446744073709551623 x.js",
    "--budget= x.js",
    "--budget=-7 x.js",
    "--budget -7 x.js",
    "--budget +7 x.js",
    "--budget 7.0 x.js",
    "--budget 7n x.js",
    "--budget 0x7 x.js",
    "--budget 7e0 x.js",
    "--budget seven x.js",
    "--budget \u{0667} x.js",
    "--budget x.js",
    "--budget",
    "x.js --budget",
    "--budget --generate 2",
    "--budget -- 7",
    "--budget 7 --budget 7 x.js",
    "--budget 7",
    "--budget 7 --",
    // the generated script
    "--generate 2 x.js",
    "x.js --generate 2",
    "--generate 2 --budget 7 x.js",
    "--generate 2 -- x.js",
    "--generate 0",
    "--generate 10001",
    "--generate 000000002",
    "--generate two",
    "--generate -2",
    "--generate=-2",
    "--generate=",
    "--generate",
    "--generate 2 --generate 2",
    "--generate 2 --budget 0",
    // files, and other words
    "x.js x.js",
    "x.js y.js",
    "x.js -- x.js",
    "-- x.js x.js",
    "-x",
    "-x.js",
    "-7",
    "-b 7 x.js",
    "--budge 7 x.js",
    "--budgets 7 x.js",
    "--maps x.js",
    "--sites x.js",
    "--x.js",
    "--help",
    "--help x.js",
    "--help --bad",
    "x.js --help",
    "-h",
    "--version",
    "-V",
];

// Words that order a file which is not there, and its name.
static NOT_THERE: &[(&str, &str)] = &[
    ("y.js", "y.js"),
    ("-", "-"),
    ("help", "help"),
    ("-- --help", "--help"),
    ("-- --budget", "--budget"),
    ("-- -x", "-x"),
    ("-- --", "--"),
    ("--budget 7 y.js", "y.js"),
    ("=", "="),
    ("7", "7"),
];

// What is to come of words with a file that is there.
#[derive(Drop)]
struct Wanted {
    status: Status,
    out: &'static str,
    err: &'static str,
}

/// The number of the first words of which something else comes.
fn first_other(alloc: Global, all: &[&str], wanted: &Wanted) -> Result<Option<usize>, Fail> {
    for (number, words) in all.iter().enumerate() {
        let left = call(alloc, words, SCRIPT, NONE_FAILS, wanted.out, wanted.err)?;
        if left.status != wanted.status || !left.out || !left.err {
            return Ok(Some(number));
        }
    }
    Ok(None)
}

fn cannot_read(alloc: Global, words: &[Text], name: &str) -> Result<bool, Fail> {
    let note = format!(in alloc; "hcjs: cannot read {name}\n")?;
    let left = call_with(alloc, words, SCRIPT, NONE_FAILS, "", &note)?;
    Ok(left.status == Status::ReadFault && left.out && left.err)
}

#[test]
fn words_that_are_taken(rt: HostRuntime) -> Result<(), Fail> {
    let finishes = Wanted {
        status: Status::Finished,
        out: "1\n",
        err: "",
    };
    assert_eq!(rt; first_other(rt.alloc(), TAKEN, &finishes)?, None);
    let halts = Wanted {
        status: Status::BudgetEnded,
        out: "1\n",
        err: "hcjs: budget ended\n",
    };
    assert_eq!(rt; first_other(rt.alloc(), HALTED, &halts)?, None);
    Ok(())
}

#[test]
fn words_that_are_refused(rt: HostRuntime) -> Result<(), Fail> {
    let usage = Wanted {
        status: Status::Usage,
        out: "",
        err: USAGE,
    };
    assert_eq!(rt; first_other(rt.alloc(), REFUSED, &usage)?, None);
    Ok(())
}

#[test]
fn files_that_are_not_there(rt: HostRuntime) -> Result<(), Fail> {
    let alloc = rt.alloc();
    for (number, (line, name)) in NOT_THERE.iter().enumerate() {
        let mut words = Vec::new(alloc);
        for word in line.split(' ') {
            words.push(text(alloc, word)?)?;
        }
        assert!(rt; cannot_read(alloc, &words, name)?, "row {number}");
    }
    // the empty word is a name
    let mut words = Vec::new(alloc);
    words.push(text(alloc, "")?)?;
    assert!(rt; cannot_read(alloc, &words, "")?);
    Ok(())
}
