//! A word of a slice, read and written through a raw pointer.
ghost use Rattle.std.specs.Prelude.{◌≡◌, ◌<◌, length, slice_index, slice_set};

/// Writes a word at an index, and returns the one that was there.
pub(crate) fn put(buf: &mut [u64], i: usize, x: u64) -> u64
    requires { i < length buf.old }
    ensures { (result ≡ slice_index buf.old i) × (buf.new ≡ slice_set buf.old i x) }
{
    let start = buf.as_mut_ptr();
    unsafe {
        let at = start.add(i);
        let old = *at;
        *at = x;
        old
    }
}

/// The word at an index.
pub(crate) fn read(buf: &[u64], i: usize) -> u64
    requires { i < length buf.now }
    ensures { result ≡ slice_index buf.now i }
{
    let start = buf.as_ptr();
    unsafe {
        let at = start.add(i);
        *at
    }
}
