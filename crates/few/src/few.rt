//! A list of at most N items.
ghost use Rattle.std.specs.Prelude.{⊤, ◌≡◌, ◌≤◌, length};

use std::alloc::AllocError;

/// At most N items, which lie in the value itself: the first `len` places hold them.
pub struct Few<T, const N: usize> {
    pub(crate) places: [T; N],
    pub(crate) len: usize,
    ghost sized: { length places ≡ N },
    ghost fits: { len ≤ N },
}

// Clone and Copy are written out, since a derive cannot stand over the ghost fields of a generic struct.
impl<T: Copy, const N: usize> Clone for Few<T, N> {
    ghost is_clone = { λ x y. y ≡ x };

    ghost is_infallible = { λ _. ⊤ };

    fn clone(&self) -> Result<Few<T, N>, AllocError> {
        Ok(*self)
    }
}

impl<T: Copy, const N: usize> Copy for Few<T, N> {}
