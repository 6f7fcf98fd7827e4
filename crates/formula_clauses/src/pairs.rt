// The pairs v < w below a number, by number, in order of v, then w.
ghost use Rattle.std.specs.Prelude.{◌≡◌, ◌≤◌, ◌<◌};
ghost use Rattle.formula.specs.Formula.{P};
ghost use Rattle.formula.specs.Pairs.{pairs_before, PairIs};

#[derive(Clone, Copy)]
pub struct Pair {
    pub v: u32,
    pub w: u32,
}

// The number of pairs below count; P of so many terminals.
pub(crate) fn pairs_below(count: u32) -> u32
    requires { count ≤ 512 }
    ensures { (result ≡ pairs_before count count) × (result ≤ 131072) × (result ≡ P count) }
{
    (count * count - count) / 2
}

// The pair with this number among the pairs below count, found by passing over those with a lower v.
#[tactic(auto, using(formula::specs::Pairs::Laws::pairs_none, formula::specs::Pairs::Laws::pairs_more))]
pub(crate) fn pair_at(count: u32, number: u32) -> Pair
    requires { (count ≤ 512) × (number < pairs_before count count) }
    ensures { PairIs count number result.v result.w }
{
    let mut rest = number;
    for v in 0..count {
        let above = count - (v + 1);
        if rest < above {
            return Pair {
                v: v,
                w: v + 1 + rest,
            };
        }
        rest -= above;
    }
    unreachable!()
}
