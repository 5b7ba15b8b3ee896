// Theorems of max-sum over forests, and of the links that are kept, at any scale of values `E`. Each function stands for one: its contract is the theorem.
#![tactic(auto)]

ghost use Rattle.theory.specs.Theorems.{CutScoreBelow, EntryCovered, TreeValueBounds, TreeValueReached, SomePlanPicked, CeilingStands, UpperValueBounds, UpperValueCovered, MessagesUnique, StraightExact, PlaceByPlace, LinkByLink, AllProvided, PlansArePositions, GraphWhole, ForestHangs};
ghost use Rattle.theory.specs.GraphTheorems.{Keeps_exists, Kept_clears, Kept_joins, Lightest, Keeps_unique, Parts_known, Left_out_count};

pub fn cut_score_below<E>()
    ensures { CutScoreBelow E }
{}

pub fn entry_covered<E>()
    ensures { EntryCovered E }
{}

pub fn tree_value_bounds<E>()
    ensures bounds { TreeValueBounds E }
    ensures reached { TreeValueReached E }
    ensures picked { SomePlanPicked E }
{}

pub fn ceiling_stands<E>()
    ensures { CeilingStands E }
{}

pub fn upper_value_bounds<E>()
    ensures bounds { UpperValueBounds E }
    ensures covered { UpperValueCovered E }
{}

pub fn messages_unique<E>()
    ensures { MessagesUnique E }
{}

pub fn straight_exact<E>()
    ensures { StraightExact E }
{}

pub fn place_by_place<E>()
    ensures { PlaceByPlace E }
{}

pub fn link_by_link<E>()
    ensures { LinkByLink E }
{}

pub fn all_provided<E>()
    ensures { AllProvided E }
{}

pub fn forest_hangs()
    ensures { ForestHangs }
{}

pub fn plans_are_positions()
    ensures positions { PlansArePositions }
    ensures whole { GraphWhole }
{}

// The links left out are a lightest set that clears the graph of its cycles.
pub fn kept_links<E>()
    ensures exists { Keeps_exists E }
    ensures clears { Kept_clears E }
    ensures spans { Kept_joins E }
    ensures lightest { Lightest E }
    ensures unique { Keeps_unique E }
    ensures parts { Parts_known }
    ensures counted { Left_out_count E }
{}
