//! The order of faults, by place and then by code.

ghost use Rattle.std.specs.Prelude.{◌≡◌};
ghost use Rattle.script_rules.specs.Faults.{is_before};
ghost use Rattle.script_rules.specs.Order.{earlier};

use es_source::SourceFault;

/// Whether a fault comes before another: the lesser place counts, and at one place the lower code.
fn is_before(a: SourceFault, b: SourceFault) -> bool
    ensures { result ≡ is_before a b }
{
    a.place.line < b.place.line
        || (a.place.line == b.place.line
            && (a.place.column < b.place.column
                || (a.place.column == b.place.column && a.code.number() < b.code.number())))
}

/// The earlier of two faults, where there are any.
pub fn earlier(a: Option<SourceFault>, b: Option<SourceFault>) -> Option<SourceFault>
    ensures { result ≡ earlier a b }
{
    match (a, b) {
        (None, other) => other,
        (Some(first), None) => Some(first),
        (Some(first), Some(second)) => {
            if is_before(second, first) {
                Some(second)
            } else {
                Some(first)
            }
        }
    }
}
