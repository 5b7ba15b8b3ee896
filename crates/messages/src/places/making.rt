// The places of a function of a problem.
ghost use Rattle.std.specs.Prelude.{◌≡◌, ◌<◌};
ghost use Rattle.theory.specs.Kept.{kept_at};
ghost use Rattle.theory.specs.Forest.{hangs};
ghost use Rattle.theory.specs.Problem.{functions};
ghost use Rattle.tables.specs.View.{problem_of};
ghost use Rattle.hanging.specs.Forest.{hanging_of};
ghost use Rattle.messages.specs.Places.{PlacesOf};

use crate::place::Place;
use crate::places::Places;
use forest::Links;
use hanging::Hung;
use layout::MOST_PLACES;
use short_list::ShortList;
use tables::Tables;

// Whether the variable hangs from the function.
fn hangs_from(hung: &Hung, variable: usize, function: usize) -> bool
    requires { variable < 64 }
    ensures { result ≡ hangs ((hanging_of hung.now).var_parent variable) function }
{
    hung.variable(variable).parent == Some(function)
}

impl Places {
    fn gathered(tables: &Tables, kept: &Links, hung: &Hung, function: usize) -> Places
        requires { function < functions (problem_of tables.now) }
        ensures { PlacesOf (problem_of tables.now) (kept_at kept.now.words) (hanging_of hung.now) function result }
    {
        let mut list = ShortList::empty(Place {
            variable: 0,
            size: 0,
            kept: false,
            below: false,
        });
        for (p, variable) in tables.layout.scope(function).iter().enumerate() {
            list.push(Place {
                variable: *variable,
                size: tables.layout.domains()[*variable as usize],
                kept: kept.holds(MOST_PLACES * function + p),
                below: hangs_from(hung, *variable as usize, function),
            });
        }
        Places {
            list,
            parent: hung.place_of(function),
        }
    }

    // The places of a function.
    pub fn of(tables: &Tables, kept: &Links, hung: &Hung, function: usize) -> Places
        requires { function < functions (problem_of tables.now) }
        ensures { PlacesOf (problem_of tables.now) (kept_at kept.now.words) (hanging_of hung.now) function result }
    {
        Places::gathered(tables, kept, hung, function)
    }
}
