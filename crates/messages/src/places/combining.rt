// Combinations of values at the places of a function.
ghost use Rattle.std.specs.Prelude.{◌≡◌, ℕ, ◌+◌, ◌/◌, ◌%◌, ◌<◌, take, slice_index};
ghost use Rattle.theory.specs.Problem.{product, index};
ghost use Rattle.messages.specs.Combinations.{combination, cleared};
ghost use Rattle.messages.specs.Places.{place_in, count_in, sizes_in};

use crate::places::Places;
use layout::MOST_PLACES;

// A number divided by a size, and what that leaves over. Most numbers here are below the size, and to compare first is quicker than to divide.
fn parted(number: usize, size: usize) -> (usize, usize)
    requires { 0 < size }
    ensures quotient { result.0 ≡ number / size }
    ensures left { result.1 ≡ number % size }
{
    if number < size {
        (0, number)
    } else {
        (number / size, number % size)
    }
}

impl Places {
    // From the last place on, each value is what the size of its place leaves over.
    fn unpacked(&self, index: usize) -> [usize; MOST_PLACES]
        ensures values { index < product (sizes_in self.now) → take (count_in self.now) result ≡ combination (sizes_in self.now) index }
        ensures small { (p : ℕ) → p < count_in self.now → slice_index result p < (place_in self.now p).size }
    {
        let mut values = [0; MOST_PLACES];
        let mut rest = index;
        for (p, place) in self.list().iter().enumerate().rev() {
            let (more, left) = parted(rest, place.size as usize);
            values[p] = left;
            rest = more;
        }
        values
    }

    // The values at the places, where the entry at an index stands; 0 past the last place.
    pub fn combination(&self, index: usize) -> [usize; MOST_PLACES]
        ensures values { index < product (sizes_in self.now) → take (count_in self.now) result ≡ combination (sizes_in self.now) index }
        ensures small { (p : ℕ) → p < count_in self.now → slice_index result p < (place_in self.now p).size }
    {
        self.unpacked(index)
    }

    // The index at which these values stand, with 0 at the removed places.
    pub(crate) fn cut_index(&self, values: &[usize; MOST_PLACES]) -> usize
        requires { (p : ℕ) → p < count_in self.now → slice_index values.now p < (place_in self.now p).size }
        ensures value { result ≡ index (sizes_in self.now) (cleared (λ p. (place_in self.now p).kept) (take (count_in self.now) values.now)) }
        ensures inside { result < product (sizes_in self.now) }
    {
        let mut index = 0;
        for (p, place) in self.list().iter().enumerate() {
            let value = if place.kept { values[p] } else { 0 };
            index = index * place.size as usize + value;
        }
        index
    }

    // Makes the values at an index those at the next one: a division at each index, or a copy, would take longer than all else there.
    pub(crate) fn advance(&self, values: &mut [usize; MOST_PLACES])
        requires { (p : ℕ) → p < count_in self.now → slice_index values.old p < (place_in self.now p).size }
        ensures next { (i : ℕ) → i + 1 < product (sizes_in self.now) → take (count_in self.now) values.old ≡ combination (sizes_in self.now) i → take (count_in self.now) values.new ≡ combination (sizes_in self.now) (i + 1) }
        ensures small { (p : ℕ) → p < count_in self.now → slice_index values.new p < (place_in self.now p).size }
    {
        let mut carry = 1;
        for (p, place) in self.list().iter().enumerate().rev() {
            let value = values[p] + carry;
            let full = value >= place.size as usize;
            values[p] = if full { 0 } else { value };
            carry = if full { 1 } else { 0 };
        }
    }
}
