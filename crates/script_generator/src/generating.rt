//! The bytes of the generated script.

ghost use Rattle.std.specs.Prelude.{◌≡◌, ◌++◌, IfOk, OnOk};
ghost use Rattle.script_generator.specs.Generated.{addition, declaration, generated_script};

use property_keys::NoMemory;
use std::alloc::Global;

fn push(script: &mut Vec<u8>, more: &[u8]) -> Result<(), NoMemory>
    ensures { OnOk result (script.new.items ≡ script.old.items ++ more.now) }
{
    match script.extend_from_slice(more) {
        Ok(()) => Ok(()),
        Err(_) => Err(NoMemory),
    }
}

// Puts the line at the end that declares the constructor of this number.
fn push_declaration(alloc: Global, script: &mut Vec<u8>, k: u32) -> Result<(), NoMemory>
    ensures { OnOk result (script.new.items ≡ script.old.items ++ declaration k) }
{
    match format!(in alloc; "function F{k}(x){{this.a=x;this.b{k}=x;}}\n") {
        Ok(line) => push(script, line.as_bytes()),
        Err(_) => Err(NoMemory),
    }
}

// Puts the line at the end that adds the `a` of two objects of this number.
fn push_addition(alloc: Global, script: &mut Vec<u8>, k: u32) -> Result<(), NoMemory>
    ensures { OnOk result (script.new.items ≡ script.old.items ++ addition k) }
{
    match format!(in alloc; "t=t+new F{k}({k}).a+new F{k}({k}).a;\n") {
        Ok(line) => push(script, line.as_bytes()),
        Err(_) => Err(NoMemory),
    }
}

/// The bytes of the generated script with `n` constructors. It sums up one value of two objects of each, and prints the sum.
pub fn generated(alloc: Global, n: u32) -> Result<Vec<u8>, NoMemory>
    ensures { IfOk result (λ script. script.items ≡ generated_script n) }
{
    let mut script = Vec::new(alloc);
    push(&mut script, b"let t=0;\n")?;
    for before in 0..n {
        let k = before + 1;
        push_declaration(alloc, &mut script, k)?;
        push_addition(alloc, &mut script, k)?;
    }
    push(&mut script, b"print(t);\n")?;
    Ok(script)
}
