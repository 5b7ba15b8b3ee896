// A set of links, as the bits of four words.
ghost use Rattle.std.specs.Prelude.{◌≡◌, ℕ, ◌*◌, ◌/◌, ◌<◌, ◌≤◌, false, ◌||◌, length, ◌==◌, slice_index};
ghost use Rattle.theory.specs.Joins.{count_below};
ghost use Rattle.theory.specs.Kept.{bit, kept_at};

use layout::{MOST_FUNCTIONS, MOST_PLACES};

// Links have numbers below this: link 4 * f + p is place p of the function f, and there are at most 64 functions.
pub const LINKS: usize = MOST_PLACES * MOST_FUNCTIONS;

#[derive(Clone, Copy)]
pub struct Links {
    words: [u64; 4],
    ghost room: { length words ≡ 4 },
    ghost fit: { (k : ℕ) → slice_index words k < 18446744073709551616 },
}

// Whether a bit of a word is set.
fn is_set(word: u64, place: usize) -> bool
    requires { place < 64 }
    ensures { result ≡ (bit word place == 1) }
{
    (word >> place) & 1 == 1
}

// How many bits of some words are set.
fn count_bits(words: &[u64]) -> u32
    requires { length words.now ≤ 4 }
    ensures { result ≡ count_below (kept_at words.now) (64 * length words.now) }
{
    words.iter().map(|word| word.count_ones()).sum()
}

impl Links {
    // No link.
    pub fn none() -> Links
        ensures { (n : ℕ) → kept_at result.words n ≡ false }
    {
        Links { words: [0; 4] }
    }

    // The word of a link; 0 where no word has it.
    fn word(&self, link: usize) -> u64
        ensures { result ≡ slice_index self.now.words (link / 64) }
    {
        self.words.get(link / 64).copied().unwrap_or(0)
    }

    // Whether a link is in the set; no number from 256 on is.
    pub fn holds(&self, link: usize) -> bool
        ensures { result ≡ kept_at self.now.words link }
    {
        is_set(self.word(link), link % 64)
    }

    fn put(&mut self, link: usize)
        requires { link < 256 }
        ensures { (n : ℕ) → kept_at self.new.words n ≡ (n == link || kept_at self.old.words n) }
    {
        self.words[link / 64] |= 1 << (link % 64);
    }

    // One link more; a number from 256 on changes nothing.
    pub fn keep(&mut self, link: usize)
        ensures within { link < 256 → (n : ℕ) → kept_at self.new.words n ≡ (n == link || kept_at self.old.words n) }
        ensures beyond { 256 ≤ link → (n : ℕ) → kept_at self.new.words n ≡ kept_at self.old.words n }
    {
        if link < LINKS {
            self.put(link);
        }
    }

    // How many links are in the set.
    pub fn count(&self) -> u32
        ensures { result ≡ count_below (kept_at self.now.words) 256 }
    {
        count_bits(&self.words)
    }
}
