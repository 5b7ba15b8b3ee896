// The places of a function, the last of them apart from the others.
ghost use Rattle.std.specs.Prelude.{◌≡◌, ℕ, ◌+◌, ◌-◌, ◌<◌, true};
ghost use Rattle.messages.specs.Places.{count_in, place_in};
ghost use Rattle.messages.specs.Rows.{OuterOf};

use crate::place::Place;
use crate::places::Places;
use short_list::ShortList;

impl Places {
    // Whether no link at them is removed.
    pub(crate) fn all_kept(&self) -> bool
        ensures { result ≡ true → (p : ℕ) → p < count_in self.now → (place_in self.now p).kept ≡ true }
    {
        self.list().iter().all(|place| place.kept)
    }

    // The last of them.
    pub(crate) fn last(&self) -> Place
        requires { 0 < count_in self.now }
        ensures { result ≡ place_in self.now (count_in self.now - 1) }
    {
        self.list()[self.count() - 1]
    }

    // All but the last of them, as places of their own.
    pub(crate) fn outer(&self) -> Places
        requires { 0 < count_in self.now }
        ensures { OuterOf self.now result }
    {
        let all = self.list();
        let mut list = ShortList::empty(all[0]);
        for place in &all[..all.len() - 1] {
            list.push(*place);
        }
        Places {
            list,
            parent: self.parent,
        }
    }
}
