ghost use Rattle.std.specs.Prelude.{◌≡◌, [], ◌∷◌, ◌++◌, length, take, drop, slice_set};
ghost use Rattle.few.specs.Listed.{listed};

use crate::few::Few;

impl<T: Copy + Default, const N: usize> Few<T, N> {
    /// No elements.
    pub fn new() -> Few<T, N>
        ensures { listed result ≡ [] }
    {
        Few {
            places: [T::default(); N],
            len: 0,
        }
    }

    /// The first `len` elements of an array, all where it has fewer.
    pub fn of(places: [T; N], len: usize) -> Few<T, N>
        ensures { listed result ≡ take len places }
    {
        Few {
            places,
            len: len.min(N),
        }
    }

    /// How many there are.
    pub fn len(&self) -> usize
        ensures { result ≡ length (listed self.now) }
    {
        self.as_slice().len()
    }

    /// The elements.
    pub fn as_slice(&self) -> &[T]
        ensures { result.now ≡ listed self.now }
    {
        let all = &self.places[..];
        &all[..self.len]
    }

    /// One element more, behind the others. Where there are `N`, nothing changes.
    pub fn push(&mut self, x: T)
        ensures { listed self.new ≡ take N (listed self.old ++ x ∷ []) }
    {
        if self.len < N {
            self.places[self.len] = x;
            self.len += 1;
        }
    }

    /// Another element at a place. Behind the last nothing changes.
    pub fn set(&mut self, at: usize, x: T)
        ensures { listed self.new ≡ slice_set (listed self.old) at x }
    {
        if at < self.len {
            self.places[at] = x;
        }
    }

    /// Without the first element. Where there is none, nothing changes.
    pub fn drop_first(&mut self)
        ensures { listed self.new ≡ drop 1 (listed self.old) }
    {
        if self.len > 0 {
            self.places[..self.len].rotate_left(1);
            self.len -= 1;
        }
    }
}
