ghost use Rattle.std.specs.Prelude.{◌≡◌, ◌≤◌};

use std::alloc::AllocError;

mod changing;

/// A list of at most `N` elements.
#[derive(Copy)]
pub struct Few<T: Copy, const N: usize> {
    // the elements are the first `len` places: an array with its length, since nothing here allocates and the kit's ArrayVec is not Copy
    places: [T; N],
    len: usize,
    ghost within: { len ≤ N },
}

// by hand, since Clone is not derived for a generic struct with a ghost field
impl<T: Copy, const N: usize> Clone for Few<T, N> {
    ghost is_clone = { λ x y. y ≡ x };

    ghost is_infallible = { λ _. Unit {0} };

    fn clone(&self) -> Result<Few<T, N>, AllocError> {
        Ok(*self)
    }
}
