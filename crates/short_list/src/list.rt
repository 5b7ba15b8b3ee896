// What a short list is held in.
ghost use Rattle.std.specs.Prelude.{◌≡◌, ◌≤◌, length, ⊤};

use std::alloc::AllocError;

mod methods;

// At most N items, in order. What stands past the last one is no part of the list.
#[derive(Copy)]
pub struct ShortList<T, const N: usize> {
    items: [T; N],
    count: usize,
    ghost room: { length items ≡ N },
    ghost few: { count ≤ N },
}

// By hand: a derive is refused on a generic struct with a ghost field.
impl<T: Copy, const N: usize> Clone for ShortList<T, N> {
    ghost is_clone = { λ list copy. copy ≡ list };

    ghost is_infallible = { λ list. ⊤ };

    fn clone(&self) -> Result<ShortList<T, N>, AllocError> {
        Ok(*self)
    }
}
