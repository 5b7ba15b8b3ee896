// The cut table of a function.
ghost use Rattle.std.specs.Prelude.{◌≡◌, ℕ, ◌+◌, ◌-◌, ◌<◌, ◌≤◌, cond, length};
ghost use Rattle.theory.specs.Problem.{product};
ghost use Rattle.messages.specs.Places.{count_in, place_in, sizes_in, cut_index, CutTo, CutWords};

use crate::places::Places;
use scale::Scale;

// The new word where the old one is at least as high an entry, and else the old one.
fn lower<V: Scale>(old: u32, new: u32) -> u32
    ensures { result ≡ cond (V.Scale.rules.leq (V.Scale.rules.reads new) (V.Scale.rules.reads old)) new old }
{
    if V::value_of(old).at_least(V::value_of(new)) {
        new
    } else {
        old
    }
}

// Lays a row of a table whose last place is kept, over the words from `key` on. It begins anew where it is the first of its rows.
fn lay_along<V: Scale>(places: &Places, table: &[u32], at: usize, key: usize, words: &mut [u32])
    requires table { length table.now ≡ product (sizes_in places.now) }
    requires words { length words.old ≡ length table.now }
    requires some { 0 < count_in places.now }
    requires row { at + (place_in places.now (count_in places.now - 1)).size ≤ length table.now }
    requires inside { key + (place_in places.now (count_in places.now - 1)).size ≤ length table.now }
    requires keys { (x : ℕ) → x < (place_in places.now (count_in places.now - 1)).size → cut_index places.now (at + x) ≡ key + x }
    requires laid { CutTo V.Scale.rules places.now table.now at words.old }
    ensures { CutTo V.Scale.rules places.now table.now (at + (place_in places.now (count_in places.now - 1)).size) words.new }
{
    for x in 0..places.last().size as usize {
        let word = table[at + x];
        words[key + x] = if key == at {
            word
        } else {
            lower::<V>(words[key + x], word)
        };
    }
}

// Lays one whose last place is removed, over the word at `key`.
fn lay_lowest<V: Scale>(places: &Places, table: &[u32], at: usize, key: usize, words: &mut [u32])
    requires table { length table.now ≡ product (sizes_in places.now) }
    requires words { length words.old ≡ length table.now }
    requires some { 0 < count_in places.now }
    requires row { at + (place_in places.now (count_in places.now - 1)).size ≤ length table.now }
    requires inside { key < length table.now }
    requires keys { (x : ℕ) → x < (place_in places.now (count_in places.now - 1)).size → cut_index places.now (at + x) ≡ key }
    requires laid { CutTo V.Scale.rules places.now table.now at words.old }
    ensures { CutTo V.Scale.rules places.now table.now (at + (place_in places.now (count_in places.now - 1)).size) words.new }
{
    let mut low = if key == at {
        table[at]
    } else {
        lower::<V>(words[key], table[at])
    };
    for x in 1..places.last().size as usize {
        low = lower::<V>(low, table[at + x]);
    }
    words[key] = low;
}

// Lays the cut table of a function over the words, row by row of its table. A row comes after the one with 0 at its removed places, which begins anew.
pub(crate) fn lay_cut<V: Scale>(places: &Places, table: &[u32], words: &mut [u32])
    requires table { length table.now ≡ product (sizes_in places.now) }
    requires small { length table.now ≤ 1024 }
    requires words { length words.old ≡ length table.now }
    requires some { 0 < count_in places.now }
    ensures { CutWords V.Scale.rules places.now table.now words.new }
{
    let outer = places.outer();
    let last = places.last();
    let size = last.size as usize;
    let mut values = outer.combination(0);
    for number in 0..table.len() / size {
        let at = number * size;
        let key = outer.cut_index(&values) * size;
        if last.kept {
            lay_along::<V>(places, table, at, key, words);
        } else {
            lay_lowest::<V>(places, table, at, key, words);
        }
        outer.advance(&mut values);
    }
}
