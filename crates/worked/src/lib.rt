// Examples worked through, proved from the definitions.
#![tactic(auto)]

ghost use Rattle.std.specs.Prelude.{◌≡◌};
ghost use Rattle.worked.specs.Calls.{FirstAnswers, CallsBuild, CallsWithdraw};
ghost use Rattle.worked.specs.Laws.{GenerousGap, SameByValues};
ghost use Rattle.worked.specs.Limits.{Limits, NotWithin};
ghost use Rattle.worked.specs.Cells.{PairStores};
ghost use Rattle.worked.specs.Ties.{TakesFirst, EqualWeights};
ghost use Rattle.worked.specs.Table.{CappedJoin, CappedGap, RankedOrder, RankedGap, PointsEntry, PointsNone, IndexOfTwo, PairWeights, PairKept, ShareNone, PairReport, TieReport, ChainStraight, ChainReport};

// The lines of the table that speak of the pair.
fn pair_examples() -> u8
    ensures count { result ≡ 2 }
    ensures weights { PairWeights }
    ensures kept { PairKept }
{
    2
}

// The report of the pair.
fn pair_reported() -> u8
    ensures count { result ≡ 1 }
    ensures report { PairReport }
{
    1
}

// The lines that speak of problems whose links form no cycle: the tie and the chain.
fn forest_examples() -> u8
    ensures count { result ≡ 3 }
    ensures tie { TieReport }
    ensures straight { ChainStraight }
    ensures chain { ChainReport }
{
    3
}

// The tie between two entries of a function.
fn entries_tied() -> u8
    ensures count { result ≡ 1 }
    ensures first { TakesFirst }
{
    1
}

// The tie between the weights of links.
fn weights_tied() -> u8
    ensures count { result ≡ 1 }
    ensures weights { EqualWeights }
{
    1
}

// The stores of the pair.
fn pair_stored() -> u8
    ensures count { result ≡ 1 }
    ensures stores { PairStores }
{
    1
}

// The lines that speak of calls.
fn called() -> u8
    ensures count { result ≡ 3 }
    ensures first { FirstAnswers }
    ensures build { CallsBuild }
    ensures withdraw { CallsWithdraw }
{
    3
}

// How many examples the table has. Each line of it is a clause.
pub fn worked_examples() -> u8
    ensures count { result ≡ 9 }
    ensures capped_join { CappedJoin }
    ensures capped_gap { CappedGap }
    ensures ranked_order { RankedOrder }
    ensures ranked_gap { RankedGap }
    ensures points_entry { PointsEntry }
    ensures points_none { PointsNone }
    ensures index { IndexOfTwo }
    ensures pair_weights { PairWeights }
    ensures pair_kept { PairKept }
{
    7 + pair_examples()
}

// How many examples speak of a whole report.
pub fn report_examples() -> u8
    ensures count { result ≡ 4 }
    ensures pair_report { PairReport }
    ensures tie_report { TieReport }
    ensures chain_straight { ChainStraight }
    ensures chain_report { ChainReport }
{
    pair_reported() + forest_examples()
}

// How many examples speak of calls, and of the share that they tell.
pub fn call_examples() -> u8
    ensures count { result ≡ 4 }
    ensures first { FirstAnswers }
    ensures build { CallsBuild }
    ensures withdraw { CallsWithdraw }
    ensures share_none { ShareNone }
{
    1 + called()
}

// The examples that tell where calls begin to be declined, and which problems pass the sizes.
fn limited() -> u8
    ensures count { result ≡ 2 }
    ensures limits { Limits }
    ensures not_within { NotWithin }
{
    2
}

// The examples that tell how much a law leaves open.
fn left_open() -> u8
    ensures count { result ≡ 2 }
    ensures generous_gap { GenerousGap }
    ensures same_by_values { SameByValues }
{
    2
}

// How many examples speak of limits, and of how much the laws leave open.
pub fn limit_examples() -> u8
    ensures count { result ≡ 4 }
    ensures limits { Limits }
    ensures not_within { NotWithin }
    ensures generous_gap { GenerousGap }
    ensures same_by_values { SameByValues }
{
    limited() + left_open()
}

// How many examples speak of ties, beside the one in the table.
pub fn tie_examples() -> u8
    ensures count { result ≡ 2 }
    ensures takes_first { TakesFirst }
    ensures equal_weights { EqualWeights }
{
    entries_tied() + weights_tied()
}

// How many examples speak of the cells of the stores.
pub fn cell_examples() -> u8
    ensures count { result ≡ 1 }
    ensures pair_stores { PairStores }
{
    pair_stored()
}
