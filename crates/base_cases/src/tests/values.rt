//! Texts at their limits, keys and numbers of texts, Symbols and counted steps (ECMA-262, 6.1.7, 7.1.4.1, 7.1.19).

ghost use Rattle.property_keys.specs.Wholes.{IsWhole};

use property_keys::{
    Counting, KeyFault, MOST_UNITS, NotWhole, PropKey, Steps, SymbolId, Symbols, TextId, Texts,
    Units, Value, same_value,
};
use std::alloc::Global;
use std::test::Fail;

/// The code units of an ASCII text.
fn made(alloc: Global, text: &str) -> Result<Units, Fail> {
    let mut units = Units::new(alloc);
    for byte in text.bytes() {
        units.push(u16::from(byte))?;
    }
    Ok(units)
}

/// Whether a text gets this number and has these code units.
fn is_interned(alloc: Global, texts: &mut Texts, text: &str, number: u32) -> Result<bool, Fail> {
    let id = texts.intern(made(alloc, text)?)?;
    Ok(id == TextId(number) && *texts.units(id) == made(alloc, text)?)
}

/// The number of a text, if it has one.
fn found(alloc: Global, texts: &Texts, text: &str) -> Result<Option<TextId>, Fail> {
    Ok(texts.find(&made(alloc, text)?))
}

// A new text goes last, and a known one keeps its number.
static NUMBERS: [(&str, u32); 4] = [("a", 0), ("b", 1), ("a", 0), ("", 2)];

#[test]
fn equal_texts_have_one_number(rt: HostRuntime) -> Result<(), Fail> {
    let alloc = rt.alloc();
    let mut texts = Texts::new(alloc)?;
    for row in NUMBERS.iter() {
        assert!(rt; is_interned(alloc, &mut texts, row.0, row.1)?, "{}", row.0);
    }
    for row in NUMBERS.iter() {
        assert_eq!(rt;
            found(alloc, &texts, row.0)?,
            Some(TextId(row.1)),
            "{}",
            row.0
        );
    }
    assert_eq!(rt; found(alloc, &texts, "c")?, None);
    Ok(())
}

/// Whether this is the text of a number.
fn is_text_of(alloc: Global, texts: &mut Texts, n: i64, want: &str) -> Result<bool, Fail>
    requires { IsWhole n }
{
    let id = texts.whole_text(n)?;
    Ok(*texts.units(id) == made(alloc, want)?)
}

#[test]
fn whole_numbers_in_decimal(rt: HostRuntime) -> Result<(), Fail> {
    let alloc = rt.alloc();
    let mut texts = Texts::new(alloc)?;
    assert!(rt; is_text_of(alloc, &mut texts, 0, "0")?);
    assert!(rt; is_text_of(alloc, &mut texts, -1, "-1")?);
    assert!(rt; is_text_of(alloc, &mut texts, 9_007_199_254_740_991, "9007199254740991")?);
    assert!(rt;
        is_text_of(
            alloc,
            &mut texts,
            -9_007_199_254_740_991,
            "-9007199254740991"
        )?
    );
    Ok(())
}

/// A text of the greatest length.
fn longest(alloc: Global) -> Result<Units, Fail> {
    let mut units = Units::new(alloc);
    for _ in 0..MOST_UNITS {
        units.push(97)?;
    }
    Ok(units)
}

#[test]
fn no_text_is_longer(rt: HostRuntime) -> Result<(), Fail> {
    let mut units = longest(rt.alloc())?;
    assert_eq!(rt; units.push(97), Err(KeyFault::TooLong));
    assert_eq!(rt; units.len(), 1_048_576);
    Ok(())
}

#[test]
fn texts_are_joined_up_to_the_limit(rt: HostRuntime) -> Result<(), Fail> {
    let alloc = rt.alloc();
    let mut texts = Texts::new(alloc)?;
    let long = texts.intern(longest(alloc)?)?;
    let empty = texts.intern(Units::new(alloc))?;
    let one = texts.intern(made(alloc, "b")?)?;
    assert_eq!(rt; texts.concat(long, empty), Ok(long));
    assert_eq!(rt; texts.concat(long, one), Err(KeyFault::TooLong));
    let two = texts.concat(one, one)?;
    assert!(rt; *texts.units(two) == made(alloc, "bb")?);
    Ok(())
}

// A text, and its array index if it is one.
static KEYS: [(&str, Option<u32>); 14] = [
    ("4294967294", Some(4_294_967_294)),
    ("4294967295", None),
    ("42949672940", None),
    ("0", Some(0)),
    ("10", Some(10)),
    ("00", None),
    ("01", None),
    ("", None),
    ("-0", None),
    ("-1", None),
    ("+1", None),
    (" 1", None),
    ("1e3", None),
    ("length", None),
];

/// Whether this is the key of a text, and the text that of the key.
fn has_key(alloc: Global, texts: &mut Texts, text: &str, index: Option<u32>) -> Result<bool, Fail> {
    let id = texts.intern(made(alloc, text)?)?;
    let key = texts.key(id);
    let want = match index {
        Some(index) => PropKey::Index(index),
        None => PropKey::Name(id),
    };
    Ok(key == want && texts.key_text(key) == Ok(id))
}

#[test]
fn keys_of_texts(rt: HostRuntime) -> Result<(), Fail> {
    let alloc = rt.alloc();
    let mut texts = Texts::new(alloc)?;
    for row in KEYS.iter() {
        assert!(rt; has_key(alloc, &mut texts, row.0, row.1)?, "{}", row.0);
    }
    Ok(())
}

// A text, and the whole number that it stands for.
static TEXT_NUMBERS: [(&str, Result<i64, NotWhole>); 29] = [
    ("9007199254740991", Ok(9_007_199_254_740_991)),
    ("9007199254740992", Err(NotWhole)),
    ("-9007199254740991", Ok(-9_007_199_254_740_991)),
    ("-9007199254740992", Err(NotWhole)),
    ("99999999999999999999999999", Err(NotWhole)),
    ("00000000000000000000000000007", Ok(7)),
    ("", Ok(0)),
    (" \t\r\n", Ok(0)),
    (" \n12\t", Ok(12)),
    ("1 2", Err(NotWhole)),
    ("0X1f", Ok(31)),
    ("0x1F", Ok(31)),
    ("0xg", Err(NotWhole)),
    ("0o17", Ok(15)),
    ("0O7", Ok(7)),
    ("0o8", Err(NotWhole)),
    ("0b101", Ok(5)),
    ("0B1", Ok(1)),
    ("0b", Err(NotWhole)),
    ("+0x1", Err(NotWhole)),
    ("007", Ok(7)),
    ("+5", Ok(5)),
    ("-5", Ok(-5)),
    ("-0", Ok(0)),
    ("+", Err(NotWhole)),
    ("--5", Err(NotWhole)),
    ("1e3", Err(NotWhole)),
    ("1.5", Err(NotWhole)),
    ("Infinity", Err(NotWhole)),
];

/// The number of the text that has these code units.
fn number_of(texts: &mut Texts, units: Units) -> Result<Result<i64, NotWhole>, Fail> {
    let id = texts.intern(units)?;
    Ok(texts.text_whole(id))
}

#[test]
fn numbers_of_texts(rt: HostRuntime) -> Result<(), Fail> {
    let alloc = rt.alloc();
    let mut texts = Texts::new(alloc)?;
    for row in TEXT_NUMBERS.iter() {
        assert_eq!(rt;
            number_of(&mut texts, made(alloc, row.0)?)?,
            row.1,
            "{}",
            row.0
        );
    }
    Ok(())
}

// White space and line terminators (12.2, 12.3).
static BLANKS: [u16; 25] = [
    0x9, 0xA, 0xB, 0xC, 0xD, 0x20, 0xA0, 0x1680, 0x2000, 0x2001, 0x2002, 0x2003, 0x2004, 0x2005,
    0x2006, 0x2007, 0x2008, 0x2009, 0x200A, 0x2028, 0x2029, 0x202F, 0x205F, 0x3000, 0xFEFF,
];

// Neighbours of theirs that are none.
static OTHERS: [u16; 8] = [0x8, 0xE, 0x85, 0x180E, 0x1FFF, 0x200B, 0x2060, 0xFFFE];

/// A text of four code units.
fn four(alloc: Global, parts: [u16; 4]) -> Result<Units, Fail> {
    let mut units = Units::new(alloc);
    for unit in parts {
        units.push(unit)?;
    }
    Ok(units)
}

#[test]
fn blanks_at_both_ends(rt: HostRuntime) -> Result<(), Fail> {
    let alloc = rt.alloc();
    let mut texts = Texts::new(alloc)?;
    for blank in BLANKS.iter() {
        let units = four(alloc, [*blank, *blank, 55, *blank])?;
        assert_eq!(rt; number_of(&mut texts, units)?, Ok(7), "{blank}");
    }
    for other in OTHERS.iter() {
        let behind = four(alloc, [55, 55, 55, *other])?;
        assert_eq!(rt; number_of(&mut texts, behind)?, Err(NotWhole), "{other}");
        let before = four(alloc, [*other, 55, 55, 55])?;
        assert_eq!(rt; number_of(&mut texts, before)?, Err(NotWhole), "{other}");
    }
    Ok(())
}

#[test]
fn symbols_have_descriptions(rt: HostRuntime) -> Result<(), Fail> {
    let mut symbols = Symbols::new(rt.alloc());
    let named = symbols.make(Some(TextId(5)))?;
    let bare = symbols.make(None)?;
    let again = symbols.make(Some(TextId(5)))?;
    assert_eq!(rt; symbols.description(named), Some(TextId(5)));
    assert_eq!(rt; symbols.description(bare), None);
    assert!(rt; !same_value(Value::Symbol(named), Value::Symbol(again)));
    assert!(rt; same_value(Value::Symbol(named), Value::Symbol(SymbolId(0))));
    Ok(())
}

#[test]
fn steps_are_counted(rt: HostRuntime) {
    let mut steps = Steps::new(Counting::new());
    assert_eq!(rt; steps.ledger().ticks(), 0);
    steps.tick();
    steps.tick();
    steps.tick();
    assert_eq!(rt; steps.ledger().ticks(), 3);
}
