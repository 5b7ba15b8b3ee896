// How much of the ceiling a score reaches.
ghost use Rattle.std.specs.Prelude.{◌≡◌};
ghost use Rattle.rules.specs.Figures.{share_of};

fn thousandths(score: i32, ceiling: i32) -> u64
    ensures { result ≡ share_of score ceiling }
{
    if score > 0 && ceiling > 0 {
        1000 * score as u64 / ceiling as u64
    } else {
        0
    }
}

// The share of the ceiling that the score reaches, in thousandths and rounded down, by the first numbers that they are shown as; 0 where one of
// these is not above 0.
pub fn share(score: (i32, i32), ceiling: (i32, i32)) -> u64
    ensures { result ≡ share_of score.0 ceiling.0 }
{
    thousandths(score.0, ceiling.0)
}
