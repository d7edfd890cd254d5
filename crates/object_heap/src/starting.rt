//! What a heap begins with.

ghost use Rattle.std.specs.Prelude.{◌≡◌, ◌≤◌, IfOk, Some, length};
ghost use Rattle.es_model.specs.declared.start_texts.StartText.TheVariants as text;
ghost use Rattle.es_model.specs.StartTexts.{start_symbols, start_texts, text_of};

use es_model::{StartText, WellKnown, start_text};
use property_keys::{KeyFault, NoMemory, RunHashing, Symbols, TextId, Texts, Units};
use std::alloc::Global;

/// The texts that are there at the start.
pub(crate) fn start_texts(alloc: Global, hashing: RunHashing) -> Result<Texts, NoMemory>
    ensures { IfOk result (λ texts. texts ≡ start_texts) }
{
    let mut texts = Texts::with_hashing(alloc, hashing)?;
    let mut n = 0;
    while let Some(text) = start_text(n) {
        let units = units_of(alloc, text.text().as_bytes())?;
        texts.intern(units)?;
        n += 1;
    }
    Ok(texts)
}

/// The well-known Symbols.
pub(crate) fn start_symbols(alloc: Global) -> Result<Symbols, NoMemory>
    ensures { IfOk result (λ symbols. symbols ≡ start_symbols) }
{
    let mut symbols = Symbols::new(alloc);
    symbols.make(description(WellKnown::HasInstance))?;
    symbols.make(description(WellKnown::ToPrimitive))?;
    symbols.make(description(WellKnown::ToStringTag))?;
    Ok(symbols)
}

fn description(symbol: WellKnown) -> Option<TextId>
    ensures { result ≡ Some (text_of (text.Description symbol)) }
{
    Some(StartText::Description(symbol).number())
}

/// One code unit for each byte.
pub(crate) fn units_of(alloc: Global, bytes: &[u8]) -> Result<Units, NoMemory>
    requires { length bytes.now ≤ 40 }
    ensures { IfOk result (λ units. units ≡ bytes.now) }
{
    let mut units = Units::new(alloc);
    for byte in bytes {
        match units.push(u16::from(*byte)) {
            Ok(()) => {}
            Err(KeyFault::NoMemory) => return Err(NoMemory),
            Err(KeyFault::TooLong) => unreachable!(),
        }
    }
    Ok(units)
}
