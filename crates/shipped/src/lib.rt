// What the engine promises at each of its scales, in plain numbers. Each function stands for one scale: its contract says what the rules of the
// scale's code are, and what is promised by them.
#![tactic(auto)]

ghost use Rattle.shipped.specs.Points.{AreWhole, PointsPromise};
ghost use Rattle.shipped.specs.Capped.{AreCapped, CappedPromise};
ghost use Rattle.shipped.specs.Ranked.{AreRanked, RankedPromise};
ghost use Rattle.shipped.specs.Weakest.{AreWeakest, HasCalls, WeakestPromise};

use scale::{Capped, Points, Ranked, Scale, Weakest};

// Whole numbers, which are added.
pub fn points_promise()
    ensures rules { AreWhole ⟦<Points as Scale>⟧.rules ⟦<Points as Scale>⟧.means }
    ensures promise { PointsPromise ⟦<Points as Scale>⟧.rules }
{}

// Numbers from 0 to 1,000, which are added up to 1,000.
pub fn capped_promise()
    ensures rules { AreCapped ⟦<Capped as Scale>⟧.rules ⟦<Capped as Scale>⟧.means }
    ensures promise { CappedPromise ⟦<Capped as Scale>⟧.rules }
{}

// Pairs of whole numbers, which are added part by part, and of which the first counts first.
pub fn ranked_promise()
    ensures rules { AreRanked ⟦<Ranked as Scale>⟧.rules ⟦<Ranked as Scale>⟧.means }
    ensures promise { RankedPromise ⟦<Ranked as Scale>⟧.rules }
{}

// Numbers from 0 to 1,000, of which the lowest counts.
pub fn weakest_promise()
    ensures rules { AreWeakest ⟦<Weakest as Scale>⟧.rules ⟦<Weakest as Scale>⟧.means }
    ensures calls { HasCalls }
    ensures promise { WeakestPromise ⟦<Weakest as Scale>⟧.rules }
{}
