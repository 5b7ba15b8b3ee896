// Hangs a node with all that is below it, and so each part of the forest from its root.
ghost use Rattle.theory.specs.Problem.{Problem};
ghost use Rattle.theory.specs.Kept.{kept_at};
ghost use Rattle.hanging.specs.Around.{Around};
ghost use Rattle.hanging.specs.Growing.{Sound, HangsVariable, HangsFunction, FreeVariable, FreeFunction};
ghost use Rattle.hanging.specs.Forest.{Shaped, HangsForest};

use crate::around::{functions_around, place_in, variable};
use crate::function_set::FunctionSet;
use crate::hung::Hung;
use forest::Links;
use layout::{Layout, MOST_PLACES, MOST_VARIABLES};

impl Hung {
    // Hangs the variable from the parent, and the functions below the variable.
    #[cycle(hang_function_hang_variable)]
    fn hang_variable(
        &mut self,
        layout: &Layout,
        kept: &Links,
        around: &[FunctionSet; MOST_VARIABLES],
        v: usize,
        parent: Option<usize>,
    )
        requires around { Around layout.now (kept_at kept.now.words) around.now }
        requires sound { Sound layout.now (kept_at kept.now.words) self.old }
        requires free { FreeVariable layout.now (kept_at kept.now.words) self.old v parent }
        ensures { HangsVariable layout.now (kept_at kept.now.words) self.old v parent self.new }
    {
        self.mark_variable(v, parent);
        let mut left = around[v];
        while let Some(f) = left.take_first() {
            if self.functions[f].parent.is_none() {
                // A link joins them, so the variable has a place there.
                let place = place_in(layout, f, v).unwrap_or(0);
                self.hang_function(layout, kept, around, f, place);
            }
        }
    }

    // Hangs the function by the place, and the variables below the function.
    #[cycle(hang_function_hang_variable)]
    fn hang_function(
        &mut self,
        layout: &Layout,
        kept: &Links,
        around: &[FunctionSet; MOST_VARIABLES],
        f: usize,
        place: usize,
    )
        requires around { Around layout.now (kept_at kept.now.words) around.now }
        requires sound { Sound layout.now (kept_at kept.now.words) self.old }
        requires free { FreeFunction layout.now (kept_at kept.now.words) self.old f place }
        ensures { HangsFunction layout.now (kept_at kept.now.words) self.old f place self.new }
    {
        self.mark_function(f, place);
        // By number: with the function it gives the link.
        for p in 0..MOST_PLACES {
            if let Some(v) = variable(layout, kept, MOST_PLACES * f + p) {
                if !self.variables[v].hung {
                    self.hang_variable(layout, kept, around, v, Some(f));
                }
            }
        }
    }
}

// Hangs each part from the first of its variables.
fn hung_parts(layout: &Layout, kept: &Links) -> Hung
    ensures { (P : Problem) → Shaped layout.now P → HangsForest P (kept_at kept.now.words) result }
{
    let around = functions_around(layout, kept);
    let mut hung = Hung::none();
    // By number: hanging one variable changes the records of others.
    for v in 0..layout.domains().len() {
        if !hung.variables[v].hung {
            hung.hang_variable(layout, kept, &around, v, None);
        }
    }
    hung
}

// Hangs the forest of the kept links, each part from its lowest variable.
pub fn hang(layout: &Layout, kept: &Links) -> Hung
    ensures { (P : Problem) → Shaped layout.now P → HangsForest P (kept_at kept.now.words) result }
{
    hung_parts(layout, kept)
}
