// A list made, read, and made longer.
ghost use Rattle.std.specs.Prelude.{◌≡◌, ◌<◌, ◌≤◌, [], ◌∷◌, ◌++◌, length};
ghost use Rattle.short_list.specs.View.{items_of};

use crate::list::ShortList;

impl<T: Copy, const N: usize> ShortList<T, N> {
    // No item. A blank fills the room.
    pub fn empty(blank: T) -> ShortList<T, N>
        ensures { items_of result ≡ [] }
    {
        ShortList {
            items: [blank; N],
            count: 0,
        }
    }

    // The items, in order.
    pub fn as_slice(&self) -> &[T]
        ensures items { result.now ≡ items_of self.now }
        ensures few { length result.now ≤ N }
    {
        &self.items[..self.count]
    }

    // How many items there are.
    pub fn len(&self) -> usize
        ensures long { result ≡ length (items_of self.now) }
        ensures few { result ≤ N }
    {
        self.as_slice().len()
    }

    // One more item, at the end.
    pub fn push(&mut self, item: T)
        requires { length (items_of self.old) < N }
        ensures { items_of self.new ≡ items_of self.old ++ (item ∷ []) }
    {
        self.items[self.count] = item;
        self.count += 1;
    }
}
