//! The trees of small sources, in the printed form of `tree_text`. They follow by hand from what a node, a function and a binding are.

use super::reading::read;
use super::tree_text::tree_text;
use std::alloc::Global;
use std::test::Fail;

mod expressions;
mod functions;
mod objects;
mod scopes;
mod statements;

/// A source, and the lines of its tree.
struct Row {
    source: &'static str,
    tree: &'static str,
}

fn text_of(alloc: Global, row: &Row) -> Result<String, Fail> {
    let tree = read(alloc, row.source.as_bytes())?;
    Ok(tree_text(alloc, &tree)?)
}

/// The number of the first row that has another tree.
fn first_other(alloc: Global, rows: &[Row]) -> Result<Option<usize>, Fail> {
    for (number, row) in rows.iter().enumerate() {
        if text_of(alloc, row)?.as_str() != row.tree {
            return Ok(Some(number));
        }
    }
    Ok(None)
}

#[test]
fn trees_of_sources(rt: HostRuntime) -> Result<(), Fail> {
    let alloc = rt.alloc();
    assert_eq!(rt; first_other(alloc, expressions::EXPRESSIONS)?, None);
    assert_eq!(rt; first_other(alloc, functions::FUNCTIONS)?, None);
    assert_eq!(rt; first_other(alloc, objects::OBJECTS)?, None);
    assert_eq!(rt; first_other(alloc, scopes::SCOPES)?, None);
    assert_eq!(rt; first_other(alloc, statements::STATEMENTS)?, None);
    Ok(())
}
