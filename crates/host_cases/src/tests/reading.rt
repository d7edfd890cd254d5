//! The passes over a source, one after another.

ghost use Rattle.std.specs.Prelude.{IfOk};
ghost use Rattle.script_rules.specs.Arena.{IsPart};

use es_source::ReadStop;
use es_tree::Checked;
use script_checker::check;
use script_grammar::Script;
use script_parser::parse;
use script_syntax::tokens;
use std::alloc::Global;

/// The script of a source, or its first fault by tokens and grammar.
fn parsed(alloc: Global, source: &[u8]) -> Result<Script, ReadStop>
    ensures { IfOk result (λ s. IsPart s.nodes s.root) }
{
    match tokens(alloc, source) {
        Ok(all) => parse(alloc, &all),
        Err(stop) => Err(stop),
    }
}

/// The tree of a source, or its first fault.
pub fn read(alloc: Global, source: &[u8]) -> Result<Checked, ReadStop> {
    let script = parsed(alloc, source)?;
    check(alloc, script)
}
