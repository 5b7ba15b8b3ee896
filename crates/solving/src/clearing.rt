// Boards before messages go up.
ghost use Rattle.std.specs.Prelude.{◌≡◌, ℕ, length};
ghost use Rattle.board.specs.SameLent.{SameLent};
ghost use Rattle.keeping.specs.Weights.{weight_of};
ghost use Rattle.spanning.specs.WeightCells.{weight_cells};
ghost use Rattle.solving.specs.Blank.{Blank};

use board::Board;
use scale::Scale;

// Makes every value neutral, the weights of links too, and every choice 0.
pub(crate) fn clear_boards<V: Scale>(values: &mut Board<V>, choices: &mut Board<u16>)
    requires values { length values.old.cells.now ≡ 2304 }
    requires choices { length choices.old.cells.now ≡ 1024 }
    ensures blank { Blank V.Scale.rules V.Scale.means V.Scale.within values.new.cells.now choices.new.cells.now }
    ensures unweighed { (n : ℕ) → weight_of V.Scale.rules V.Scale.means (weight_cells values.new.cells.now) n ≡ V.Scale.rules.neutral }
    ensures same { SameLent values.old values.new × SameLent choices.old choices.new }
{
    values.clear(V::neutral());
    choices.clear(0);
}
