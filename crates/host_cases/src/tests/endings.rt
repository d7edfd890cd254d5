//! Each ending, and each failing call: a failing write appends the first half of its bytes, rounded down.

use super::host::{Failing, call};
use script_host::Status;
use std::test::Fail;

struct Case {
    words: &'static str,
    file: &'static str,
    fails: Failing,
    status: Status,
    out: &'static str,
    err: &'static str,
}

static CASES: &[Case] = &[
    Case {
        words: "x.js",
        file: "let o = {};\no.a = 7;\nprint(o.a);\nprint(o.b);\n",
        fails: (0, 0, 0),
        status: Status::Finished,
        out: "7\nundefined\n",
        err: "",
    },
    Case {
        words: "",
        file: "let o = {};\no.a = 7;\nprint(o.a);\nprint(o.b);\n",
        fails: (0, 0, 0),
        status: Status::Usage,
        out: "",
        err: "hcjs: usage: hcjs [--budget N] [--generate N] [FILE]\n",
    },
    Case {
        words: "y.js",
        file: "let o = {};\no.a = 7;\nprint(o.a);\nprint(o.b);\n",
        fails: (0, 0, 0),
        status: Status::ReadFault,
        out: "",
        err: "hcjs: cannot read y.js\n",
    },
    Case {
        words: "x.js x.js",
        file: "let o = {};\no.a = 7;\nprint(o.a);\nprint(o.b);\n",
        fails: (0, 0, 0),
        status: Status::Usage,
        out: "",
        err: "hcjs: usage: hcjs [--budget N] [--generate N] [FILE]\n",
    },
    Case {
        words: "-x.js",
        file: "let o = {};\no.a = 7;\nprint(o.a);\nprint(o.b);\n",
        fails: (0, 0, 0),
        status: Status::Usage,
        out: "",
        err: "hcjs: usage: hcjs [--budget N] [--generate N] [FILE]\n",
    },
    Case {
        words: "x.js",
        file: "let printer = {};\nprinter.printer = 0;\nprint(printer.printer);\n",
        fails: (0, 0, 0),
        status: Status::Finished,
        out: "0\n",
        err: "",
    },
    Case {
        words: "x.js",
        file: "let o = {};\no.a = 1;\no.b = 2;\no.a = 9007199254740991;\nprint(o.a);\nprint(o.b);\no.b = 10;\nprint(o.b);\n",
        fails: (0, 0, 0),
        status: Status::Finished,
        out: "9007199254740991\n2\n10\n",
        err: "",
    },
    Case {
        words: "x.js",
        file: "let o = {};\n",
        fails: (0, 0, 0),
        status: Status::Finished,
        out: "",
        err: "",
    },
    Case {
        words: "x.js",
        file: "let o = {};\no.a = 7;\nprint(o.a);\nprint(o.b);\n",
        fails: (1, 0, 0),
        status: Status::ReadFault,
        out: "",
        err: "hcjs: cannot read x.js\n",
    },
    Case {
        words: "x.js",
        file: "let o = {};\no.a = 7;\nprint(o.a);\nprint(o.b);\n",
        fails: (2, 0, 0),
        status: Status::ReadFault,
        out: "",
        err: "hcjs: cannot read x.js\n",
    },
    Case {
        words: "x.js",
        file: "let o = {};\no.a = 7;\nprint(o.a);\nprint(o.b);\n",
        fails: (3, 0, 0),
        status: Status::ReadFault,
        out: "",
        err: "hcjs: cannot read x.js\n",
    },
    Case {
        words: "x.js",
        file: "let o = {};\no.a = 7;\nprint(o.a);\nprint(o.b);\n",
        fails: (4, 0, 0),
        status: Status::Finished,
        out: "7\nundefined\n",
        err: "",
    },
    Case {
        words: "x.js",
        file: "let o = {};\no.a = 7;\nprint(o.a);\nprint(o.b);\n",
        fails: (0, 1, 0),
        status: Status::WriteFault,
        out: "7",
        err: "hcjs: cannot write\n",
    },
    Case {
        words: "x.js",
        file: "let o = {};\no.a = 7;\nprint(o.a);\nprint(o.b);\n",
        fails: (0, 2, 0),
        status: Status::WriteFault,
        out: "7\nundef",
        err: "hcjs: cannot write\n",
    },
    Case {
        words: "x.js",
        file: "let o = {};\no.a = 7;\nprint(o.a);\nprint(o.b);\n",
        fails: (0, 3, 0),
        status: Status::WriteFault,
        out: "7\nundefined\n",
        err: "hcjs: cannot write\n",
    },
    Case {
        words: "x.js",
        file: "let o = {};\no.a = 7;\nprint(o.a);\nprint(o.b);\n",
        fails: (0, 1, 1),
        status: Status::WriteFault,
        out: "7",
        err: "hcjs: can",
    },
    Case {
        words: "x.js",
        file: "let o = {};\no.a = 7;\nprint(o.a);\nprint(o.b);\n",
        fails: (0, 1, 2),
        status: Status::WriteFault,
        out: "7",
        err: "hcjs: cannot write\n",
    },
    Case {
        words: "x.js",
        file: "[];\n",
        fails: (0, 0, 1),
        status: Status::WriteFault,
        out: "",
        err: "hcjs: 1:1:",
    },
    Case {
        words: "x.js",
        file: "[];\n",
        fails: (0, 0, 2),
        status: Status::WriteFault,
        out: "",
        err: "hcjs: 1:1: not built\n",
    },
    Case {
        words: "x.js",
        file: "[];\n",
        fails: (0, 1, 0),
        status: Status::WriteFault,
        out: "",
        err: "hcjs: cannot write\n",
    },
    Case {
        words: "y.js",
        file: "let o = {};\no.a = 7;\nprint(o.a);\nprint(o.b);\n",
        fails: (0, 0, 1),
        status: Status::WriteFault,
        out: "",
        err: "hcjs: canno",
    },
    Case {
        words: "y.js",
        file: "let o = {};\no.a = 7;\nprint(o.a);\nprint(o.b);\n",
        fails: (0, 1, 0),
        status: Status::WriteFault,
        out: "",
        err: "hcjs: cannot write\n",
    },
    Case {
        words: "-x.js",
        file: "let o = {};\no.a = 7;\nprint(o.a);\nprint(o.b);\n",
        fails: (0, 0, 1),
        status: Status::WriteFault,
        out: "",
        err: "hcjs: usage: hcjs [--budge",
    },
    // an uncaught value, and the end of the turns: what is printed stays, the note is one write
    Case {
        words: "x.js",
        file: "print(1); throw 'two';",
        fails: (0, 0, 0),
        status: Status::Thrown,
        out: "1\n",
        err: "hcjs: uncaught two\n",
    },
    Case {
        words: "x.js",
        file: "print(1); throw 'two';",
        fails: (0, 0, 1),
        status: Status::WriteFault,
        out: "1\n",
        err: "hcjs: unc",
    },
    Case {
        words: "x.js",
        file: "print(1); throw 'two';",
        fails: (0, 0, 2),
        status: Status::WriteFault,
        out: "1\n",
        err: "hcjs: uncaught two\n",
    },
    Case {
        words: "x.js",
        file: "print(1); throw 'two';",
        fails: (0, 2, 0),
        status: Status::WriteFault,
        out: "1\n",
        err: "hcjs: cannot write\n",
    },
    Case {
        words: "x.js",
        file: "print(1); while (true) {}",
        fails: (0, 0, 0),
        status: Status::BudgetEnded,
        out: "1\n",
        err: "hcjs: budget ended\n",
    },
];

#[test]
fn each_ending(rt: HostRuntime) -> Result<(), Fail> {
    for (number, case) in CASES.iter().enumerate() {
        let left = call(
            rt.alloc(),
            case.words,
            case.file.as_bytes(),
            case.fails,
            case.out,
            case.err,
        )?;
        assert_eq!(rt; left.status, case.status, "case {number}");
        assert!(rt; left.out, "output of case {number}");
        assert!(rt; left.err, "error output of case {number}");
    }
    Ok(())
}
