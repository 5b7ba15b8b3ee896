// The words of a file.
ghost use Rattle.std.specs.Prelude.{◌≡◌, ℕ, ◌+◌, ◌*◌, ◌/◌, ◌<◌, ◌≤◌, length, slice_index};
ghost use Rattle.theory.specs.Refusals.{Answered, word_tests};
ghost use Rattle.file.specs.Bytes.{word};
ghost use Rattle.file.specs.Numbers.{refusal};
ghost use Rattle.file.specs.Tests.{each, at_place, entry_tests};

use crate::fault::{FileFault, located};
use crate::places::WORD;
use scale::Scale;
use tables::check_word;

fn test_word<V: Scale>(word: u32, place: usize) -> Result<u32, FileFault>
    ensures { Answered refusal (at_place place (word_tests V.Scale.rules word)) (λ w. w ≡ word) result }
{
    located(check_word::<V>(word), place)
}

// Whether each word of a section that begins at a place is an entry.
pub(crate) fn test_words<V: Scale>(section: &[u8], place: usize) -> Result<(), FileFault>
    requires { place ≤ 65536 }
    ensures { Answered refusal (each (length section.now / 4) (entry_tests V.Scale.rules place section.now)) (λ _. Unit {0}) result }
{
    let (words, _) = section.as_chunks::<WORD>();
    for (k, word) in words.iter().enumerate() {
        test_word::<V>(u32::from_le_bytes(*word), place + WORD * k)?;
    }
    Ok(())
}

// Stores the words of a section.
pub(crate) fn load_words(words: &mut [u32], section: &[u8])
    requires { length section.now ≤ 4 * length words.old }
    ensures { (k : ℕ) → k < length section.now / 4 → slice_index words.new k ≡ word section.now (4 * k) }
{
    let (told, _) = section.as_chunks::<WORD>();
    for (k, word) in told.iter().enumerate() {
        // By index: after `iter_mut` a proof knows the length alone.
        words[k] = u32::from_le_bytes(*word);
    }
}
