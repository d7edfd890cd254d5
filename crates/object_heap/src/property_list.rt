//! A list of properties in order of creation.

ghost use Rattle.std.specs.Prelude.{◌≡◌, MatchOption, None};
ghost use Rattle.es_model.specs.Objects.{find_property, remove_property, same_key};
ghost use Rattle.object_heap.specs.Places.{IsPlace};

use es_model::OwnProperty;
use property_keys::PropKey;

/// Whether two keys are the same. Texts are compared by their numbers, so both must be of one table.
pub(crate) fn is_same_key(a: PropKey, b: PropKey) -> bool
    ensures { result ≡ same_key a b }
{
    match (a, b) {
        (PropKey::Index(i), PropKey::Index(j)) => i == j,
        (PropKey::Name(s), PropKey::Name(t)) => s.0 == t.0,
        (PropKey::Sym(s), PropKey::Sym(t)) => s.0 == t.0,
        _ => false,
    }
}

/// The place of the property with a key.
pub(crate) fn place_of(properties: &[OwnProperty], key: PropKey) -> Option<usize>
    ensures { MatchOption result (find_property properties.now key ≡ None) (λ i. IsPlace properties.now key i) }
{
    for (i, property) in properties.iter().enumerate() {
        if is_same_key(property.key, key) {
            return Some(i);
        }
    }
    None
}

/// Takes out the property with a key.
pub(crate) fn take_out(properties: &mut Vec<OwnProperty>, key: PropKey)
    ensures { properties.new.items ≡ remove_property properties.old.items key }
{
    properties.retain(|property| !is_same_key(property.key, key));
}
