//! White space and line terminators (12.2, 12.3).

ghost use Rattle.std.specs.Prelude.{◌≡◌, ◌≤◌, length};
ghost use Rattle.std.specs.List.{prefix_len, suffix_len};
ghost use Rattle.property_keys.specs.Blanks.{is_blank, without_leading_blanks, without_trailing_blanks, trimmed};

/// White space (ECMA-262, 12.2) or a line terminator (12.3).
fn is_blank(unit: u16) -> bool
    ensures { result ≡ is_blank unit }
{
    matches!(
        unit,
        0x9 | 0xA | 0xB | 0xC | 0xD | 0x20 | 0xA0 | 0x1680 | 0x2000..=0x200A
            | 0x2028
            | 0x2029
            | 0x202F
            | 0x205F
            | 0x3000
            | 0xFEFF
    )
}

/// A text without the blanks at its ends (ECMA-262, 22.1.3.32.1).
pub fn trim(units: &[u16]) -> &[u16]
    ensures { result.now ≡ trimmed units.now }
{
    trim_end(trim_start(units))
}

fn trim_start(units: &[u16]) -> &[u16]
    ensures { result.now ≡ without_leading_blanks units.now }
{
    units.split_at(leading_blanks(units)).1
}

fn trim_end(units: &[u16]) -> &[u16]
    ensures { result.now ≡ without_trailing_blanks units.now }
{
    units.split_at(units.len() - trailing_blanks(units)).0
}

fn leading_blanks(units: &[u16]) -> usize
    ensures value { result ≡ prefix_len is_blank units.now }
    ensures within { result ≤ length units.now }
{
    units.iter().take_while(|unit| is_blank(**unit)).count()
}

fn trailing_blanks(units: &[u16]) -> usize
    ensures value { result ≡ suffix_len is_blank units.now }
    ensures within { result ≤ length units.now }
{
    let blanks = units.iter().rev().take_while(|unit| is_blank(**unit));
    blanks.count()
}
