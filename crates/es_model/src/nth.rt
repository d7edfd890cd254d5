//! A property by its place in a list of them.

ghost use Rattle.std.specs.Prelude.{◌≡◌, slice_get};

/// The n-th of a list, where there is one.
pub(crate) fn nth<T: Copy>(all: &[T], n: usize) -> Option<T>
    ensures { result ≡ slice_get all.now n }
{
    all.get(n).copied()
}
