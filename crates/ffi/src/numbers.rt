// The figures of a report as plain numbers.
ghost use Rattle.std.specs.Prelude.{◌≡◌, ◌<◌, slice_index};
ghost use Rattle.solving.specs.Report.{figures_of};
ghost use Rattle.ffi.specs.Reports.{Tells};

use forest::Links;
use scale::Scale;
use solving::Report;
use std::array;

// A value is two numbers, as its scale shows it.
#[repr(C)]
#[derive(Clone, Copy)]
pub struct Figures {
    pub plan: [u8; 64],
    pub kept: [u64; 4],
    pub share: u64,
    pub kept_count: u32,
    pub tree_first: i32,
    pub tree_second: i32,
    pub score_first: i32,
    pub score_second: i32,
    pub removed_first: i32,
    pub removed_second: i32,
    pub ceiling_first: i32,
    pub ceiling_second: i32,
}

// The word with this number of a set of links.
fn word_of(links: &Links, number: usize) -> u64
    requires { number < 4 }
    ensures { result ≡ slice_index links.now.words number }
{
    let mut word = 0;
    for bit in 0..64 {
        if links.holds(64 * number + bit) {
            word |= 1 << bit;
        }
    }
    word
}

// The four words of a set of links.
fn words_of(links: &Links) -> [u64; 4]
    ensures { result ≡ links.now.words }
{
    array::from_fn(|number| word_of(links, number))
}

// The figures of a report.
pub(crate) fn shown_figures<V: Scale>(report: &Report<V>) -> Figures
    ensures { Tells V.Scale.rules (figures_of V.Scale.means report.now) result }
{
    let (tree_first, tree_second) = report.tree.show();
    let (score_first, score_second) = report.score.show();
    let (removed_first, removed_second) = report.removed.show();
    let (ceiling_first, ceiling_second) = report.ceiling.show();
    Figures {
        plan: report.plan,
        kept: words_of(&report.kept),
        share: report.share,
        kept_count: report.kept_count,
        tree_first,
        tree_second,
        score_first,
        score_second,
        removed_first,
        removed_second,
        ceiling_first,
        ceiling_second,
    }
}
