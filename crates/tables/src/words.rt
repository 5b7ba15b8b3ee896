// Words of tables.
ghost use Rattle.std.specs.Prelude.{◌≡◌};
ghost use Rattle.theory.specs.Refusals.{Answered, word_tests};
ghost use Rattle.layout.specs.Numbers.{problem_number};

use layout::ProblemFault;
use scale::Scale;

// The word, if it is an entry of the scale.
pub fn check_word<V: Scale>(word: u32) -> Result<u32, ProblemFault>
    ensures { Answered problem_number (word_tests V.Scale.rules word) (λ w. w ≡ word) result }
{
    V::test(word)?;
    Ok(word)
}
