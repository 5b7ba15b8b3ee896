// One walk over the table of a function.
ghost use Rattle.std.specs.Prelude.{◌≡◌, ℕ, ◌+◌, ◌*◌, ◌/◌, ◌%◌, ◌<◌, ◌≤◌, length};
ghost use Rattle.theory.specs.Cut.{Weighs};
ghost use Rattle.tables.specs.View.{problem_of};
ghost use Rattle.weights.specs.Swings.{values_at, stride_at, base, SwingFrom, Widest};

use crate::link::Link;
use scale::{Measuring, higher, lower};

// The entries of a table as the value at one place varies.
#[derive(Clone, Copy)]
pub(crate) struct Line<'a> {
    table: &'a [u32],
    // How many values the place has.
    values: usize,
    // How far behind the entry of a value that of the next one stands.
    stride: usize,
    ghost some: { 0 < length table.now },
    ghost whole: { length table.now % (values * stride) ≡ 0 },
    ghost small: { length table.now ≤ 1024 },
}

impl<'a> Line<'a> {
    // The gap between the highest and the lowest entry, where that of value 0 stands at `from`.
    fn swing<V: Measuring>(self, from: usize) -> V
        requires { (x : ℕ) → x < self.values → from + x * self.stride < length self.table.now }
        ensures value { SwingFrom V.Scale.rules self.entry.table.now self.entry.values self.entry.stride from (V.Scale.means result) }
        ensures within { V.Scale.within 2 result }
    {
        let mut high = V::value_of(self.table[from]);
        let mut low = high;
        // By index: `step_by` would walk all the words between.
        for x in 1..self.values {
            let value = V::value_of(self.table[from + x * self.stride]);
            high = higher(high, value);
            low = lower(low, value);
        }
        high.gap(low)
    }

    // The widest gap of a block: of the lines that have the same values at the earlier places. The first entry of the block stands at `from`.
    fn widest_of_block<V: Measuring>(self, from: usize) -> V
        requires { from + self.values * self.stride ≤ length self.table.now }
        ensures value { Widest V.Scale.rules self.entry.table.now self.entry.values self.entry.stride (λ later. from + later) self.entry.stride (V.Scale.means result) }
        ensures within { V.Scale.within 2 result }
    {
        let mut widest = self.swing::<V>(from);
        for later in 1..self.stride {
            widest = higher(widest, self.swing::<V>(from + later));
        }
        widest
    }

    // The widest gap of all lines.
    fn widest_swing<V: Measuring>(self) -> V
        ensures value { Widest V.Scale.rules self.entry.table.now self.entry.values self.entry.stride (base self.entry.values self.entry.stride) (length self.entry.table.now / self.entry.values) (V.Scale.means result) }
        ensures within { V.Scale.within 2 result }
    {
        let mut widest = self.widest_of_block::<V>(0);
        let block = self.values * self.stride;
        let mut from = block;
        while from < self.table.len() {
            widest = higher(widest, self.widest_of_block::<V>(from));
            from += block;
        }
        widest
    }
}

impl<'a> Link<'a> {
    // Its weight, by how many values its variable has and how far apart its entries stand.
    pub(crate) fn weight<V: Measuring>(self, values: usize, stride: usize) -> V
        requires values { values ≡ values_at (problem_of self.tables.now) self.function self.place }
        requires stride { stride ≡ stride_at (problem_of self.tables.now) self.function self.place }
        ensures value { Weighs V.Scale.rules (problem_of self.entry.tables.now) self.entry.function self.entry.place (V.Scale.means result) }
        ensures within { V.Scale.within 2 result }
    {
        let table = self.tables.table(self.function);
        let line = Line {
            table,
            values,
            stride,
        };
        line.widest_swing::<V>()
    }
}
