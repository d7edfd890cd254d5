//! The tokens of sources.

use es_source::{Place, Token, TokenKind};
use property_keys::Units;
use script_syntax::tokens;

/// What a token is to be.
enum Wanted {
    Name(&'static str),
    Number(i64),
    Text(&'static [u16]),
    Strict,
    Punctuator(&'static str),
}

/// A token: what it is, its line, its column, and whether it follows a break.
struct Seen(Wanted, u32, u32, bool);

struct Good {
    source: &'static str,
    tokens: &'static [Seen],
    end: Place,
}

static GOOD: &[Good] = &[
    Good {
        source: "",
        tokens: &[],
        end: Place { line: 1, column: 1 },
    },
    // the script that docs/TOKENS.md, GRAMMAR.md and TREE.md go through
    Good {
        source: "let o = {};\no.a = 7\nprint(o.a);",
        tokens: &[
            Seen(Wanted::Name("let"), 1, 1, false),
            Seen(Wanted::Name("o"), 1, 5, false),
            Seen(Wanted::Punctuator("="), 1, 7, false),
            Seen(Wanted::Punctuator("{"), 1, 9, false),
            Seen(Wanted::Punctuator("}"), 1, 10, false),
            Seen(Wanted::Punctuator(";"), 1, 11, false),
            Seen(Wanted::Name("o"), 2, 1, true),
            Seen(Wanted::Punctuator("."), 2, 2, false),
            Seen(Wanted::Name("a"), 2, 3, false),
            Seen(Wanted::Punctuator("="), 2, 5, false),
            Seen(Wanted::Number(7), 2, 7, false),
            Seen(Wanted::Name("print"), 3, 1, true),
            Seen(Wanted::Punctuator("("), 3, 6, false),
            Seen(Wanted::Name("o"), 3, 7, false),
            Seen(Wanted::Punctuator("."), 3, 8, false),
            Seen(Wanted::Name("a"), 3, 9, false),
            Seen(Wanted::Punctuator(")"), 3, 10, false),
            Seen(Wanted::Punctuator(";"), 3, 11, false),
        ],
        end: Place {
            line: 3,
            column: 12,
        },
    },
    // the script that docs/TOKENS.md, GRAMMAR.md and TREE.md go through
    Good {
        source: "let o = {};\no.a = 7\nprint(o.a);",
        tokens: &[
            Seen(Wanted::Name("let"), 1, 1, false),
            Seen(Wanted::Name("o"), 1, 5, false),
            Seen(Wanted::Punctuator("="), 1, 7, false),
            Seen(Wanted::Punctuator("{"), 1, 9, false),
            Seen(Wanted::Punctuator("}"), 1, 10, false),
            Seen(Wanted::Punctuator(";"), 1, 11, false),
            Seen(Wanted::Name("o"), 2, 1, true),
            Seen(Wanted::Punctuator("."), 2, 2, false),
            Seen(Wanted::Name("a"), 2, 3, false),
            Seen(Wanted::Punctuator("="), 2, 5, false),
            Seen(Wanted::Number(7), 2, 7, false),
            Seen(Wanted::Name("print"), 3, 1, true),
            Seen(Wanted::Punctuator("("), 3, 6, false),
            Seen(Wanted::Name("o"), 3, 7, false),
            Seen(Wanted::Punctuator("."), 3, 8, false),
            Seen(Wanted::Name("a"), 3, 9, false),
            Seen(Wanted::Punctuator(")"), 3, 10, false),
            Seen(Wanted::Punctuator(";"), 3, 11, false),
        ],
        end: Place {
            line: 3,
            column: 12,
        },
    },
    Good {
        source: "a\nb",
        tokens: &[
            Seen(Wanted::Name("a"), 1, 1, false),
            Seen(Wanted::Name("b"), 2, 1, true),
        ],
        end: Place { line: 2, column: 2 },
    },
    Good {
        source: "$_9 \u{4E00}\u{200D}z",
        tokens: &[
            Seen(Wanted::Name("$_9"), 1, 1, false),
            Seen(Wanted::Name("\u{4E00}\u{200D}z"), 1, 5, false),
        ],
        end: Place {
            line: 1,
            column: 12,
        },
    },
    Good {
        source: "x/* \r\n */y",
        tokens: &[
            Seen(Wanted::Name("x"), 1, 1, false),
            Seen(Wanted::Name("y"), 2, 4, true),
        ],
        end: Place { line: 2, column: 5 },
    },
    Good {
        source: "a//c\u{2028}b",
        tokens: &[
            Seen(Wanted::Name("a"), 1, 1, false),
            Seen(Wanted::Name("b"), 2, 1, true),
        ],
        end: Place { line: 2, column: 2 },
    },
    Good {
        source: "a/**/b/*/*/ c",
        tokens: &[
            Seen(Wanted::Name("a"), 1, 1, false),
            Seen(Wanted::Name("b"), 1, 6, false),
            Seen(Wanted::Name("c"), 1, 13, false),
        ],
        end: Place {
            line: 1,
            column: 14,
        },
    },
    Good {
        source: "#!x\ra \u{2029}\u{FEFF}if",
        tokens: &[
            Seen(Wanted::Name("a"), 2, 1, false),
            Seen(Wanted::Name("if"), 3, 4, true),
        ],
        end: Place { line: 3, column: 6 },
    },
    Good {
        source: "0 9 10 0x1F 0O17 0b101 0x0001 9007199254740991",
        tokens: &[
            Seen(Wanted::Number(0), 1, 1, false),
            Seen(Wanted::Number(9), 1, 3, false),
            Seen(Wanted::Number(10), 1, 5, false),
            Seen(Wanted::Number(31), 1, 8, false),
            Seen(Wanted::Number(15), 1, 13, false),
            Seen(Wanted::Number(5), 1, 18, false),
            Seen(Wanted::Number(1), 1, 24, false),
            Seen(Wanted::Number(9_007_199_254_740_991), 1, 31, false),
        ],
        end: Place {
            line: 1,
            column: 47,
        },
    },
    Good {
        source: "'\\b\\t\\n\\v\\f\\r\\0\\x4a\\u0042\\u{0043}\\q\\'\"'",
        tokens: &[Seen(
            Wanted::Text(&[8, 9, 10, 11, 12, 13, 0, 0x4A, 0x42, 0x43, 113, 39, 34]),
            1,
            1,
            false,
        )],
        end: Place {
            line: 1,
            column: 40,
        },
    },
    Good {
        source: "'a\\\r\nb\\\u{2029}c'd",
        tokens: &[
            Seen(Wanted::Text(&[97, 98, 99]), 1, 1, false),
            Seen(Wanted::Name("d"), 3, 3, false),
        ],
        end: Place { line: 3, column: 4 },
    },
    Good {
        source: "\"\u{2028}\"x",
        tokens: &[
            Seen(Wanted::Text(&[0x2028]), 1, 1, false),
            Seen(Wanted::Name("x"), 2, 2, false),
        ],
        end: Place { line: 2, column: 3 },
    },
    Good {
        source: "'\\uD83D\\uDE00\\u{1F600}\u{1F600}\\\u{1F600}\\u{D800}'",
        tokens: &[Seen(
            Wanted::Text(&[
                0xD83D, 0xDE00, 0xD83D, 0xDE00, 0xD83D, 0xDE00, 0xD83D, 0xDE00, 0xD800,
            ]),
            1,
            1,
            false,
        )],
        end: Place {
            line: 1,
            column: 41,
        },
    },
    Good {
        source: "'use strict'\"use strict\"'use\\x20strict'",
        tokens: &[
            Seen(Wanted::Strict, 1, 1, false),
            Seen(Wanted::Strict, 1, 13, false),
            Seen(
                Wanted::Text(&[117, 115, 101, 32, 115, 116, 114, 105, 99, 116]),
                1,
                25,
                false,
            ),
        ],
        end: Place {
            line: 1,
            column: 40,
        },
    },
    Good {
        source: "a===b!==c>>=",
        tokens: &[
            Seen(Wanted::Name("a"), 1, 1, false),
            Seen(Wanted::Punctuator("==="), 1, 2, false),
            Seen(Wanted::Name("b"), 1, 5, false),
            Seen(Wanted::Punctuator("!=="), 1, 6, false),
            Seen(Wanted::Name("c"), 1, 9, false),
            Seen(Wanted::Punctuator(">"), 1, 10, false),
            Seen(Wanted::Punctuator(">="), 1, 11, false),
        ],
        end: Place {
            line: 1,
            column: 13,
        },
    },
    Good {
        source: "...1?.x&&=--->",
        tokens: &[
            Seen(Wanted::Punctuator("..."), 1, 1, false),
            Seen(Wanted::Number(1), 1, 4, false),
            Seen(Wanted::Punctuator("?"), 1, 5, false),
            Seen(Wanted::Punctuator("."), 1, 6, false),
            Seen(Wanted::Name("x"), 1, 7, false),
            Seen(Wanted::Punctuator("&&"), 1, 8, false),
            Seen(Wanted::Punctuator("="), 1, 10, false),
            Seen(Wanted::Punctuator("--"), 1, 11, false),
            Seen(Wanted::Punctuator("-"), 1, 13, false),
            Seen(Wanted::Punctuator(">"), 1, 14, false),
        ],
        end: Place {
            line: 1,
            column: 15,
        },
    },
    Good {
        source: "{ } ( ) [ ] . ... ; , < > <= >= == != === !== + - * % ++ -- ! && || ?? ? : = += -= *= %= =>",
        tokens: &[
            Seen(Wanted::Punctuator("{"), 1, 1, false),
            Seen(Wanted::Punctuator("}"), 1, 3, false),
            Seen(Wanted::Punctuator("("), 1, 5, false),
            Seen(Wanted::Punctuator(")"), 1, 7, false),
            Seen(Wanted::Punctuator("["), 1, 9, false),
            Seen(Wanted::Punctuator("]"), 1, 11, false),
            Seen(Wanted::Punctuator("."), 1, 13, false),
            Seen(Wanted::Punctuator("..."), 1, 15, false),
            Seen(Wanted::Punctuator(";"), 1, 19, false),
            Seen(Wanted::Punctuator(","), 1, 21, false),
            Seen(Wanted::Punctuator("<"), 1, 23, false),
            Seen(Wanted::Punctuator(">"), 1, 25, false),
            Seen(Wanted::Punctuator("<="), 1, 27, false),
            Seen(Wanted::Punctuator(">="), 1, 30, false),
            Seen(Wanted::Punctuator("=="), 1, 33, false),
            Seen(Wanted::Punctuator("!="), 1, 36, false),
            Seen(Wanted::Punctuator("==="), 1, 39, false),
            Seen(Wanted::Punctuator("!=="), 1, 43, false),
            Seen(Wanted::Punctuator("+"), 1, 47, false),
            Seen(Wanted::Punctuator("-"), 1, 49, false),
            Seen(Wanted::Punctuator("*"), 1, 51, false),
            Seen(Wanted::Punctuator("%"), 1, 53, false),
            Seen(Wanted::Punctuator("++"), 1, 55, false),
            Seen(Wanted::Punctuator("--"), 1, 58, false),
            Seen(Wanted::Punctuator("!"), 1, 61, false),
            Seen(Wanted::Punctuator("&&"), 1, 63, false),
            Seen(Wanted::Punctuator("||"), 1, 66, false),
            Seen(Wanted::Punctuator("??"), 1, 69, false),
            Seen(Wanted::Punctuator("?"), 1, 72, false),
            Seen(Wanted::Punctuator(":"), 1, 74, false),
            Seen(Wanted::Punctuator("="), 1, 76, false),
            Seen(Wanted::Punctuator("+="), 1, 78, false),
            Seen(Wanted::Punctuator("-="), 1, 81, false),
            Seen(Wanted::Punctuator("*="), 1, 84, false),
            Seen(Wanted::Punctuator("%="), 1, 87, false),
            Seen(Wanted::Punctuator("=>"), 1, 90, false),
        ],
        end: Place {
            line: 1,
            column: 92,
        },
    },
];

fn is_text(units: &Units, text: &str) -> bool {
    let mut i = 0;
    for unit in text.encode_utf16() {
        if i >= units.len() || units.unit(i) != unit {
            return false;
        }
        i += 1;
    }
    i == units.len()
}

fn are_units(units: &Units, wanted: &[u16]) -> bool {
    if units.len() != wanted.len() {
        return false;
    }
    for i in 0..units.len() {
        if units.unit(i) != wanted[i] {
            return false;
        }
    }
    true
}

fn is_wanted(kind: &TokenKind, wanted: &Wanted) -> bool {
    match (kind, wanted) {
        (TokenKind::Name(units), Wanted::Name(text)) => is_text(units, text),
        (TokenKind::Number(number), Wanted::Number(value)) => *number == *value,
        (TokenKind::Text { units, strict }, Wanted::Text(value)) => !*strict
            && are_units(units, value),
        (TokenKind::Text { units, strict }, Wanted::Strict) => *strict
            && is_text(units, "use strict"),
        (TokenKind::Punctuator(units), Wanted::Punctuator(text)) => is_text(units, text),
        _ => false,
    }
}

fn is_seen(token: &Token, seen: &Seen) -> bool {
    is_wanted(&token.kind, &seen.0)
        && token.place.line == seen.1
        && token.place.column == seen.2
        && token.after_break == seen.3
}

#[test]
fn tokens_of_sources(rt: HostRuntime) {
    for row in GOOD {
        let source = row.source;
        let Ok(all) = tokens(rt.alloc(), source.as_bytes()) else {
            panic!(rt; "{source:?}");
        };
        assert_eq!(rt; all.len(), row.tokens.len(), "{source:?}");
        assert_eq!(rt; all.end(), row.end, "{source:?}");
        for i in 0..all.len() {
            assert!(rt; is_seen(all.at(i), &row.tokens[i]), "{source:?} {i}");
        }
    }
}
