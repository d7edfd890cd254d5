//! Runs with budgets, which end at the exact turn.
//!
//! `print(1);` takes six turns: the statement, the call, its function and its argument as nodes, the start of `print`, and a round of `print` over its one
//! argument. The line is written behind the last of them. `;` takes one.

use super::reading::read;
use es_tree::Checked;
use hc_outside::{CallList, MemorySink};
use property_keys::{Counting, RunHashing, Steps, Value, same_value};
use script_host::{Ending, HostStop, run};
use std::alloc::Global;
use std::test::Fail;

// How a run is to end.
#[derive(Clone, Copy)]
enum Wanted {
    Finishes,
    Throws(i64),
    Halts,
    CannotWrite,
}

// A script, its budget, the call of the output that fails (0: none), what is printed, and how it ends.
struct Budget(&'static str, u64, u64, &'static str, Wanted);

static BUDGETS: &[Budget] = &[
    Budget("", 0, 0, "", Wanted::Finishes),
    Budget(";", 0, 0, "", Wanted::Halts),
    Budget(";", 1, 0, "", Wanted::Finishes),
    Budget("while (true) {}", 10, 0, "", Wanted::Halts),
    Budget("while (true) {}", 1, 0, "", Wanted::Halts),
    Budget("while (true) {}", 0, 0, "", Wanted::Halts),
    Budget("for (;;) ;", 1000, 0, "", Wanted::Halts),
    // around a print
    Budget("print(1);", 5, 0, "", Wanted::Halts),
    Budget("print(1);", 6, 0, "1\n", Wanted::Finishes),
    Budget("print(1); ;", 6, 0, "1\n", Wanted::Halts),
    Budget("print(1); ;", 7, 0, "1\n", Wanted::Finishes),
    Budget("print();", 3, 0, "", Wanted::Halts),
    Budget("print();", 4, 0, "\n", Wanted::Finishes),
    Budget("print(1, 2);", 7, 0, "", Wanted::Halts),
    Budget("print(1, 2);", 8, 0, "1 2\n", Wanted::Finishes),
    Budget("print(print(1));", 9, 0, "1\n", Wanted::Halts),
    Budget(
        "print(print(1));",
        10,
        0,
        "1\nundefined\n",
        Wanted::Finishes,
    ),
    // the loop takes one turn, and each round eight: its test, its block, and the print
    Budget("while (true) { print(1); }", 8, 0, "", Wanted::Halts),
    Budget("while (true) { print(1); }", 9, 0, "1\n", Wanted::Halts),
    Budget("while (true) { print(1); }", 16, 0, "1\n", Wanted::Halts),
    Budget("while (true) { print(1); }", 17, 0, "1\n1\n", Wanted::Halts),
    // a halt passes every `catch` and `finally`
    Budget(
        "try { while (true) {} } catch (e) { print(1); } finally { print(2); }",
        100,
        0,
        "",
        Wanted::Halts,
    ),
    Budget(
        "try { throw 1; } finally { print(2); }",
        8,
        0,
        "",
        Wanted::Halts,
    ),
    Budget(
        "try { throw 1; } finally { print(2); }",
        9,
        0,
        "2\n",
        Wanted::Throws(1),
    ),
    // An accessor takes its turn and is made before its name of 2^20 + 4 code units is too long (10.2.9). Up to that turn it is 2 for `k`, 146 for the loop
    // (1 + 2 + 21 * 3 + 20 * 4), and 5 for the `try`, its statement, the literal, its key and the accessor; and then the print takes six
    Budget(
        "let k = 'a'; for (let i = 0; i < 20; i++) k += k; try { ({ get [k]() {} }); } catch { print(1); }",
        158,
        0,
        "",
        Wanted::Halts,
    ),
    Budget(
        "let k = 'a'; for (let i = 0; i < 20; i++) k += k; try { ({ get [k]() {} }); } catch { print(1); }",
        159,
        0,
        "1\n",
        Wanted::Finishes,
    ),
    Budget("throw 1;", 1, 0, "", Wanted::Halts),
    Budget("throw 1;", 2, 0, "", Wanted::Throws(1)),
    // the output fails: a front of the line is held, and nothing more is written
    Budget(
        "print(1); print('twenty'); print(3);",
        100,
        1,
        "1",
        Wanted::CannotWrite,
    ),
    Budget(
        "print(1); print('twenty'); print(3);",
        100,
        2,
        "1\ntwe",
        Wanted::CannotWrite,
    ),
    Budget(
        "print(1); print('twenty'); print(3);",
        100,
        3,
        "1\ntwenty\n3",
        Wanted::CannotWrite,
    ),
    Budget(
        "print(1); print('twenty'); print(3);",
        100,
        4,
        "1\ntwenty\n3\n",
        Wanted::Finishes,
    ),
    Budget(
        "print(1); while (true) {}",
        100,
        1,
        "1",
        Wanted::CannotWrite,
    ),
    // a line with a line feed in it is one call
    Budget(
        "print('a\\nb'); print('c');",
        100,
        2,
        "a\nb\nc",
        Wanted::CannotWrite,
    ),
];

fn failing(alloc: Global, call: u64) -> Result<CallList, Fail> {
    let mut calls = CallList::new(alloc);
    calls.push(call)?;
    Ok(calls)
}

fn ends_so(ending: Ending, wanted: Wanted) -> bool {
    match (ending, wanted) {
        (Ending::Finished, Wanted::Finishes) => true,
        (Ending::Halted, Wanted::Halts) => true,
        (Ending::Thrown(value), Wanted::Throws(n)) => same_value(value, Value::Whole(n)),
        _ => false,
    }
}

fn runs_so(alloc: Global, script: &Checked, case: &Budget) -> Result<bool, Fail> {
    let mut out = MemorySink::new(alloc, failing(alloc, case.2)?);
    let mut steps = Steps::new(Counting::new());
    let hashing = RunHashing::of(case.0.as_bytes());
    let so = match run(alloc, script, case.1, hashing, &mut out, &mut steps) {
        Ok(ran) => ends_so(ran.ending, case.4),
        Err(HostStop::WriteFault) => matches!(case.4, Wanted::CannotWrite),
        Err(HostStop::NoMemory) => false,
    };
    Ok(so && out.held() == case.3.as_bytes())
}

/// The number of the first run that comes to something else.
fn first_other(alloc: Global) -> Result<Option<usize>, Fail> {
    for (number, case) in BUDGETS.iter().enumerate() {
        let script = read(alloc, case.0.as_bytes())?;
        if !runs_so(alloc, &script, case)? {
            return Ok(Some(number));
        }
    }
    Ok(None)
}

#[test]
fn budgets(rt: HostRuntime) -> Result<(), Fail> {
    assert_eq!(rt; first_other(rt.alloc())?, None);
    Ok(())
}
