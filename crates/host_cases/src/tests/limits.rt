//! The limits of a file in the host, bytes and nesting, and scripts that are large.

use super::host::{prints, refuses};
use std::alloc::Global;
use std::test::Fail;

// A text, another so many times, and a third.
fn repeated(
    alloc: Global,
    front: &[u8],
    part: &[u8],
    count: usize,
    end: &[u8],
) -> Result<Vec<u8>, Fail> {
    let mut file = Vec::new(alloc);
    file.extend_from_slice(front)?;
    for _ in 0..count {
        file.extend_from_slice(part)?;
    }
    file.extend_from_slice(end)?;
    Ok(file)
}

// So many spaces: 2^12 times 2^10, and some more.
fn spaces(alloc: Global, more: &[u8]) -> Result<Vec<u8>, Fail> {
    let line = repeated(alloc, b"", b" ", 1 << 12, b"")?;
    repeated(alloc, b"", &line, 1 << 10, more)
}

#[test]
fn longest_file(rt: HostRuntime) -> Result<(), Fail> {
    let file = spaces(rt.alloc(), b"")?;
    assert_eq!(rt; file.len(), 1 << 22);
    assert!(rt; prints(rt.alloc(), &file, "")?);
    Ok(())
}

#[test]
fn file_that_is_too_long(rt: HostRuntime) -> Result<(), Fail> {
    let file = spaces(rt.alloc(), b" ")?;
    assert!(rt; refuses(rt.alloc(), &file, "hcjs: 1:1: fault 1 TooLong\n")?);
    Ok(())
}

// A file of several parts of 4,096 bytes.
#[test]
fn file_of_many_parts(rt: HostRuntime) -> Result<(), Fail> {
    let file = repeated(
        rt.alloc(),
        b"let o = {};\n",
        b"/* 7 */\n",
        2000,
        b"o.a = 7; print(o.a);",
    )?;
    assert!(rt; prints(rt.alloc(), &file, "7\n")?);
    Ok(())
}

#[test]
fn deepest_token(rt: HostRuntime) -> Result<(), Fail> {
    let alloc = rt.alloc();
    let file = repeated(alloc, b"", b"(", 199, b"1")?;
    let file = repeated(alloc, &file, b")", 199, b"")?;
    assert!(rt; refuses(alloc, &file, "hcjs: 1:200: fault 5 TooDeep\n")?);
    let file = repeated(alloc, b"", b"(", 198, b"1")?;
    let file = repeated(alloc, &file, b")", 198, b"")?;
    assert!(rt; prints(alloc, &file, "")?);
    Ok(())
}

// A million turns are enough for two a statement, and for the last line.
#[test]
fn many_statements(rt: HostRuntime) -> Result<(), Fail> {
    let alloc = rt.alloc();
    let file = repeated(alloc, b"", b"1;\n", 100_000, b"print(2);")?;
    assert!(rt; prints(alloc, &file, "2\n")?);
    Ok(())
}

// Past 65,536 of each: a round takes thirteen turns.
#[test]
fn many_objects_and_texts(rt: HostRuntime) -> Result<(), Fail> {
    let script = b"let i = 0; let o; while (i < 70000) { o = { a: 'k' + i }; i++; } print(i, o.a);";
    assert!(rt; prints(rt.alloc(), script.as_slice(), "70000 k69999\n")?);
    Ok(())
}
