//! The order of texts by their code units (ECMA-262, 7.2.13, step 3).

ghost use Rattle.std.specs.Prelude.{◌≡◌};
ghost use Rattle.plain_builtins.specs.Comparisons.{units_less, units_looked};

use property_keys::Units;

/// How a text stands to another one.
#[derive(Clone, Copy)]
pub(crate) struct Order {
    /// how many places were looked at
    pub(crate) looked: u64,
    pub(crate) is_less: bool,
}

/// The first code unit that differs decides, and else the shorter text is less.
pub(crate) fn order_of(left: &Units, right: &Units) -> Order
    ensures looked { result.looked ≡ units_looked left.now right.now }
    ensures less { result.is_less ≡ units_less left.now right.now }
{
    let mut i = 0;
    'places: while i < left.len() && i < right.len() {
        let unit = left.unit(i);
        let other = right.unit(i);
        if unit != other {
            return Order {
                looked: i as u64 + 1,
                is_less: unit < other,
            };
        }
        i += 1;
    }
    Order {
        looked: i as u64,
        is_less: i < right.len(),
    }
}
