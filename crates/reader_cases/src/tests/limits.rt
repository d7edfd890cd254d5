//! The limits of a source: its length, that of a text or name, and nesting. A statement is one production and an expression in it another, so the first token of an expression stands in two, and each
//! parenthesis, prefix operator, function or block around it adds one.

use super::reading::{parsed, read};
use es_source::{FaultCode, Place, ReadStop, SourceFault};
use script_syntax::tokens;
use std::alloc::Global;
use std::test::Fail;

static SPACES: [u8; 1024] = [b' '; 1024];

static LETTERS: [u8; 1024] = [b'a'; 1024];

/// A text, another so many times, and a third.
fn repeated(
    alloc: Global,
    first: &[u8],
    part: (&[u8], usize),
    last: &[u8],
) -> Result<Vec<u8>, Fail> {
    let mut source = Vec::from_slice(alloc, first)?;
    for _ in 0..part.1 {
        source.extend_from_slice(part.0)?;
    }
    source.extend_from_slice(last)?;
    Ok(source)
}

/// The outcome of a text so many times, another, and a third so many times.
fn wrapped(
    alloc: Global,
    open: (&[u8], usize),
    middle: &[u8],
    close: (&[u8], usize),
) -> Result<Result<(), ReadStop>, Fail> {
    let front = repeated(alloc, b"", open, middle)?;
    let source = repeated(alloc, &front, close, b"")?;
    Ok(parsed(alloc, &source).map(|_| ()))
}

fn on_first_line(column: u32) -> Place {
    Place { line: 1, column }
}

/// A fault on the first line.
fn fault(code: FaultCode, column: u32) -> ReadStop {
    ReadStop::Fault(SourceFault {
        code,
        place: on_first_line(column),
    })
}

fn too_deep(column: u32) -> Result<(), ReadStop> {
    Err(fault(FaultCode::TooDeep, column))
}

#[test]
fn parentheses(rt: HostRuntime) -> Result<(), Fail> {
    let alloc = rt.alloc();
    assert_eq!(rt; wrapped(alloc, (b"(", 198), b"1", (b")", 198))?, Ok(()));
    assert_eq!(rt;
        wrapped(alloc, (b"(", 199), b"1", (b")", 199))?,
        too_deep(200)
    );
    Ok(())
}

#[test]
fn the_earlier_fault(rt: HostRuntime) -> Result<(), Fail> {
    let alloc = rt.alloc();
    // the last `(` stands in 200, and no script goes on with the `)`
    assert_eq!(rt;
        wrapped(alloc, (b"(", 199), b")", (b")", 198))?,
        Err(fault(FaultCode::Unexpected, 200))
    );
    // the last `(` stands in 201
    assert_eq!(rt;
        wrapped(alloc, (b"(", 200), b")", (b")", 199))?,
        too_deep(200)
    );
    Ok(())
}

#[test]
fn other_productions(rt: HostRuntime) -> Result<(), Fail> {
    let alloc = rt.alloc();
    assert_eq!(rt; wrapped(alloc, (b"!", 198), b"1", (b"", 0))?, Ok(()));
    assert_eq!(rt; wrapped(alloc, (b"!", 199), b"1", (b"", 0))?, too_deep(199));
    assert_eq!(rt; wrapped(alloc, (b"{", 200), b"", (b"}", 200))?, Ok(()));
    assert_eq!(rt;
        wrapped(alloc, (b"{", 201), b"", (b"}", 201))?,
        too_deep(201)
    );
    // a `new` is one more, and the callee behind it
    assert_eq!(rt; wrapped(alloc, (b"new ", 198), b"a", (b"", 0))?, Ok(()));
    assert_eq!(rt;
        wrapped(alloc, (b"new ", 199), b"a", (b"", 0))?,
        too_deep(793)
    );
    // a declared function is one, and the body's items are inside
    assert_eq!(rt;
        wrapped(alloc, (b"function f(){", 200), b"", (b"}", 200))?,
        Ok(())
    );
    assert_eq!(rt;
        wrapped(alloc, (b"function f(){", 201), b"", (b"}", 201))?,
        too_deep(2601)
    );
    Ok(())
}

#[test]
fn methods_begin_at_their_parenthesis(rt: HostRuntime) -> Result<(), Fail> {
    let alloc = rt.alloc();
    // behind 198 parentheses the `{` and the `a` stand in 200, and the method in one more
    assert_eq!(rt; wrapped(alloc, (b"(", 198), b"{a}", (b")", 198))?, Ok(()));
    assert_eq!(rt;
        wrapped(alloc, (b"(", 198), b"{a(){}}", (b")", 198))?,
        too_deep(201)
    );
    assert_eq!(rt;
        wrapped(alloc, (b"(", 197), b"{a(){}}", (b")", 197))?,
        Ok(())
    );
    assert_eq!(rt;
        wrapped(alloc, (b"(", 198), b"{get a(){}}", (b")", 198))?,
        too_deep(205)
    );
    Ok(())
}

/// How many tokens a text, another so many times, and a third have, and where they end.
fn long(
    alloc: Global,
    first: &[u8],
    part: (&[u8], usize),
    last: &[u8],
) -> Result<Result<(usize, Place), ReadStop>, Fail> {
    let source = repeated(alloc, first, part, last)?;
    Ok(tokens(alloc, &source).map(|all| (all.len(), all.end())))
}

#[test]
fn length_of_a_source(rt: HostRuntime) -> Result<(), Fail> {
    let alloc = rt.alloc();
    // 2^22 bytes
    let most = (SPACES.as_slice(), 4096);
    assert_eq!(rt;
        long(alloc, b"", most, b"")?,
        Ok((0, on_first_line(4_194_305)))
    );
    let too_long = Err(fault(FaultCode::TooLong, 1));
    assert_eq!(rt; long(alloc, b"", most, b" ")?, too_long);
    assert_eq!(rt; long(alloc, b"", most, b"\xFF")?, too_long);
    Ok(())
}

#[test]
fn length_of_a_text_or_name(rt: HostRuntime) -> Result<(), Fail> {
    let alloc = rt.alloc();
    // 2^20 code units
    let most = (LETTERS.as_slice(), 1024);
    let too_long = Err(fault(FaultCode::BadToken, 1));
    assert_eq!(rt;
        long(alloc, b"'", most, b"'")?,
        Ok((1, on_first_line(1_048_579)))
    );
    assert_eq!(rt; long(alloc, b"'", most, b"a'")?, too_long);
    assert_eq!(rt;
        long(alloc, b"", most, b"")?,
        Ok((1, on_first_line(1_048_577)))
    );
    assert_eq!(rt; long(alloc, b"", most, b"a")?, too_long);
    Ok(())
}

/// How many nodes, functions and sites the tree of a text so many times has.
fn counts(alloc: Global, part: (&[u8], usize)) -> Result<Result<(u32, u32, u32), ReadStop>, Fail> {
    let source = repeated(alloc, b"", part, b"")?;
    Ok(read(alloc, &source).map(|tree| (tree.nodes(), tree.functions(), tree.sites())))
}

#[test]
fn more_than_65_536_of_each(rt: HostRuntime) -> Result<(), Fail> {
    // a statement and its function, and in that a statement, an access with its site, and a name: five nodes, one function, one site
    assert_eq!(rt;
        counts(rt.alloc(), (b"(function(){a.b});", 65_537))?,
        Ok((327_685, 65_537, 65_537))
    );
    Ok(())
}
