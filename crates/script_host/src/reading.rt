//! The whole reading of a script.

ghost use Rattle.script_host.specs.Reading.{ReadsScript};

use es_source::ReadStop;
use es_tree::Checked;
use script_checker::check;
use script_parser::parse;
use script_syntax::tokens;
use std::alloc::Global;

/// The tree of a script's bytes, or their first fault: of length, of decoding or of tokens, else of the grammar, else of the static rules.
pub fn read_script(alloc: Global, bytes: &[u8]) -> Result<Checked, ReadStop>
    ensures { ReadsScript bytes.now result }
{
    // The tokens are needed no more once the script stands, so their memory is given back before the rules are checked.
    let script = {
        let tokens = tokens(alloc, bytes)?;
        parse(alloc, &tokens)?
    };
    check(alloc, script)
}
