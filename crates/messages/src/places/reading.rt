// What is known of the places of a function.
ghost use Rattle.std.specs.Prelude.{◌≡◌, ◌<◌, ◌≤◌, length};
ghost use Rattle.messages.specs.Places.{places_in, count_in, place_in};

use crate::place::Place;
use crate::places::Places;

impl Places {
    // All of them, by number.
    pub fn list(&self) -> &[Place]
        ensures list { result.now ≡ places_in self.now }
        ensures few { length result.now ≤ 4 }
    {
        self.list.as_slice()
    }

    // How many there are.
    pub fn count(&self) -> usize
        ensures count { result ≡ count_in self.now }
        ensures few { result ≤ 4 }
    {
        self.list().len()
    }

    // The place by which the function hangs.
    pub fn parent(&self) -> usize
        ensures { result ≡ self.now.parent }
    {
        self.parent
    }

    // One of them.
    pub fn place(&self, p: usize) -> Place
        requires { p < count_in self.now }
        ensures { result ≡ place_in self.now p }
    {
        self.list()[p]
    }
}
