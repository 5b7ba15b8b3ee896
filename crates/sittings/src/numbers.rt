// The numbers of a line.
ghost use Rattle.std.specs.Prelude.{ℕ, SomeIff, MatchOption, IfOk};
ghost use Rattle.std.specs.List.{AllByRecursion};
ghost use Rattle.sittings.specs.Numbers as say;
ghost use Rattle.sittings.specs.Spoken.{texts};

use std::alloc::{AllocError, Global};

pub(crate) fn number(text: &str) -> Option<usize>
    ensures { SomeIff result (say.IsNumber text.now) (say.number text.now) }
{
    text.parse::<usize>().ok()
}

// All texts as numbers, if each is one.
#[tactic(auto, using(crate::proofs::Counting::number_at))]
pub(crate) fn numbers(alloc: Global, list: &[&str]) -> Result<Option<Vec<usize>>, AllocError>
    ensures { IfOk result (λ r. MatchOption r (AllByRecursion say.IsNumber (texts list.now) → ⊥) (λ v. say.AreNumbers (texts list.now) v.items)) }
{
    let mut numbers = Vec::new(alloc);
    for text in list {
        let Some(number) = number(text) else {
            return Ok(None);
        };
        numbers.push(number)?;
    }
    Ok(Some(numbers))
}

// The 16 bits of a number, which may be signed or not.
fn half(text: &str) -> Option<u16>
    ensures { SomeIff result (say.IsHalf text.now) (say.half text.now) }
{
    let value = text.parse::<i64>().ok()?;
    match i16::try_from(value) {
        Ok(signed) => Some(signed.cast_unsigned()),
        Err(_) => u16::try_from(value).ok(),
    }
}

// The 32 bits of a number.
fn whole(text: &str) -> Option<u32>
    ensures { SomeIff result (say.IsWhole text.now) (say.whole text.now) }
{
    let value = text.parse::<i64>().ok()?;
    match i32::try_from(value) {
        Ok(signed) => Some(signed.cast_unsigned()),
        Err(_) => u32::try_from(value).ok(),
    }
}

// A word of a table: one number, or two with a comma between, of which the first is bits 0 to 15 and the second bits 16 to 31.
pub(crate) fn word(text: &str) -> Option<u32>
    ensures { MatchOption result ((w : ℕ) → say.IsWord text.now w → ⊥) (say.IsWord text.now) }
{
    match text.split_once(',') {
        Some((first, second)) => Some(u32::from(half(first)?) + u32::from(half(second)?) * 65_536),
        None => whole(text),
    }
}
